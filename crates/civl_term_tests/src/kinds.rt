// All kinds of formulas, of programs with small sorts, and of one with greater ones. A row says of the formulas whose names begin so what
// each of them weighs, in the order of the list, and of those with few values how many there are, at how many of the values of their
// variables they are true, and the sum of the numbers of these. Rows are what bench/oracle.py works out of the programs' texts:
// `bench/oracle.py --tests` says whether they still are.

use crate::counting::found_in;
use std::test::Fail;

/// A right mover that gives a permission, a left one that takes one, and one that moves both ways and is lent one; each is wrong in
/// some way.
const ACTIONS: &str = "civl 1; layers 1; permissions 1;
global linear pool : word(2) layers 0 to 1;
global f : bool layers 0 to 1;
init (f || (pool == 1:2));
action Grab(val k : word(1)) -> (give a : word(1)) choose (c : bool = f) layers 0 to 0 right
  gate ((!f) || (k == 0:1)) guard (c && ((pool & (1:2 << widen(k, 2))) != 0:2)) {
    a := k;
    pool := (pool & (~(1:2 << widen((k & slice(pool, 0, 0)), 2))));
    f := (f && c);
  }
action Drop(take t : word(1)) -> (val o : word(2)) choose (d : bool = (!f)) layers 0 to 0 left
  gate ((!f) || (pool == 0:2)) guard (d || f) {
    o := pool;
    pool := (pool | (1:2 << widen(t, 2)));
    f := d;
  }
action Look(lend t : word(1)) -> (val o : bool) choose () layers 0 to 1 both
  gate (((pool >> widen(t, 2)) & 1:2) == 0:2) guard (f || (t == 0:1)) {
    o := f;
    f := (f || (t == 0:1));
  }
";

const OF_ACTIONS: &str = "
initial: 1 formulas, 5 of 8 values, sum 23, weights 13
K2: 3 formulas, 1 of 80 values, sum 26, weights 79 51 60
K3: 6 formulas, 9 of 480 values, sum 521, weights 240 195 197 197 154 156
K4: 6 formulas, 4 of 480 values, sum 132, weights 240 195 197 197 154 156
K5: 6 formulas, 12 of 480 values, sum 479, weights 195 152 154 197 154 156
K6: 6 formulas, 8 of 480 values, sum 752, weights 195 152 154 197 154 156
K7: 6 formulas, 4 of 480 values, sum 288, weights 195 152 154 197 154 156
K8: 2 formulas, 2 of 32 values, sum 17, weights 16 30";

#[test]
fn terms_of_actions(rt: HostRuntime) -> Result<(), Fail> {
    let found = found_in(rt.alloc(), ACTIONS, OF_ACTIONS)?;
    assert_eq!(rt; found.as_str(), OF_ACTIONS);
    Ok(())
}

/// A yield loop that tries until it takes, with a choice, an intro and values behind `with`, and two invariants to keep.
const TAKES: &str = "civl 1; layers 1; permissions 1;
global f : bool layers 0 to 1;
global g : bool layers 1 to 1;
init ((!f) || g);
invariant 1 (g => f);
action Try(val a : bool) -> (val ok : bool) choose (c : bool = true) layers 0 to 0 atomic
  gate (a || f) guard (c || f) { ok := ((!f) && c); f := (f || c); }
action Put(val a : bool) -> () choose () layers 0 to 1 atomic
  gate true guard (!a) { f := a; }
action AtomTake(val a : bool) -> (val r : bool) choose (d : bool = true) layers 1 to 1 atomic
  gate (a || (!g)) guard ((!g) || d) { f := true; g := true; r := d; }
proc Take(val a : bool) -> (val r : bool) refines AtomTake with ((r && f)) layer 1 {
  var ok : bool;
  while yield (!ok) inv ((ok == done) && (ok => (g || r))) {
    call Try(a) -> (ok);
    if ok { commit; intro g := (f && r); } else { }
  }
  assert (ok || a);
  if a { r := ok; commit; } else { }
}
";

const OF_TAKES: &str = "
initial: 1 formulas, 3 of 4 values, sum 5, weights 6
K1 step: 1 formulas, 1 of 4 values, sum 2, weights 9
K2: 2 formulas, 0 of 12 values, sum 0, weights 16 6
K9 gate: 2 formulas, 4 of 136 values, sum 144, weights 11 67
K9 invariant: 2 formulas, 1 of 136 values, sum 68, weights 20 76
K9 once: 2 formulas, 8 of 136 values, sum 734, weights 11 67
K9 stutter: 2 formulas, 2 of 136 values, sum 174, weights 14 73
K9 perform: 2 formulas, 1 of 136 values, sum 68, weights 24 93
K10: 4 formulas, 0 of 2312 values, sum 0, weights 17 33 76 98
K11: 2 formulas, 1 of 136 values, sum 3, weights 16 32";

#[test]
fn terms_of_a_yield_loop(rt: HostRuntime) -> Result<(), Fail> {
    let found = found_in(rt.alloc(), TAKES, OF_TAKES)?;
    assert_eq!(rt; found.as_str(), OF_TAKES);
    Ok(())
}

/// A rank loop whose invariant speaks of old values, and a yield behind a commit.
const COUNTS: &str = "civl 1; layers 1; permissions 1;
global f : bool layers 0 to 1;
init true;
invariant 1 (f || true);
action Set() -> () choose () layers 0 to 0 atomic gate (!f) guard true { f := true; }
action Clear() -> () choose () layers 0 to 1 both gate true guard f { f := false; }
action AtomCount() -> (val r : bool) choose (c : bool = false) layers 1 to 1 atomic
  gate true guard (c || f) { f := c; r := c; }
proc Count() -> (val r : bool) refines AtomCount with (r) layer 1 {
  var i : word(1);
  call Set() -> ();
  i := 1:1;
  while rank (i != 0:1) by i inv ((f == (old(f) || (!old(r)))) || (old(done) && done)) {
    if r { i := (i - 1:1); } else { i := (i & 1:1); }
  }
  commit;
  yield (f || (i == 1:1));
  call Clear() -> ();
  r := (i == 1:1);
}
";

const OF_COUNTS: &str = "
initial: 1 formulas, 2 of 2 values, sum 1, weights 2
K1 step: 1 formulas, 0 of 2 values, sum 0, weights 5
K2: 2 formulas, 0 of 4 values, sum 0, weights 5 4
K3: 2 formulas, 0 of 4 values, sum 0, weights 16 14
K4: 2 formulas, 0 of 4 values, sum 0, weights 16 14
K5: 2 formulas, 1 of 4 values, sum 0, weights 16 14
K6: 2 formulas, 0 of 4 values, sum 0, weights 16 14
K7: 2 formulas, 1 of 4 values, sum 1, weights 16 14
K8: 1 formulas, 1 of 2 values, sum 0, weights 3
K9 gate: 3 formulas, 1 of 146 values, sum 1, weights 13 43 22
K9 invariant: 3 formulas, 12 of 146 values, sum 992, weights 23 58 22
K9 once: 3 formulas, 28 of 146 values, sum 2086, weights 13 43 22
K9 stutter: 3 formulas, 20 of 146 values, sum 1354, weights 15 47 24
K9 perform: 3 formulas, 10 of 146 values, sum 278, weights 21 59 30
K9 rank: 1 formulas, 16 of 128 values, sum 1178, weights 53
K10: 6 formulas, 48 of 1314 values, sum 8384, weights 15 20 48 55 28 35
K11: 2 formulas, 4 of 18 values, sum 24, weights 13 20";

#[test]
fn terms_of_a_rank_loop(rt: HostRuntime) -> Result<(), Fail> {
    let found = found_in(rt.alloc(), COUNTS, OF_COUNTS)?;
    assert_eq!(rt; found.as_str(), OF_COUNTS);
    Ok(())
}

/// A procedure that takes a permission and gives another, between yields at which it holds the one, and the other.
const HOLDS: &str = "civl 1; layers 1; permissions 1;
global linear pool : word(2) layers 0 to 1;
global who : word(1) layers 0 to 1;
init ((who == 0:1) || (pool == 1:2));
invariant 1 (pool != 3:2);
invariant 1 ((who == 0:1) || (pool != 2:2));
action Own(lend t : word(1)) -> () choose () layers 0 to 0 atomic
  gate true guard true { who := t; }
action Fetch() -> (give n : word(1)) choose () layers 0 to 0 right
  gate true guard ((pool & 1:2) == 1:2) { n := 0:1; pool := (pool & 2:2); }
action Give(take t : word(1)) -> () choose () layers 0 to 1 left
  gate true guard true { pool := (pool | (1:2 << widen(t, 2))); who := t; }
action AtomHold(take t : word(1)) -> (give n : word(1)) choose () layers 1 to 1 atomic
  gate true guard ((pool & 1:2) == 1:2) { n := 0:1; pool := ((pool & 2:2) | (1:2 << widen(t, 2))); who := t; }
proc Hold(take t : word(1)) -> (give n : word(1)) refines AtomHold with () layer 1 {
  call Own(t) -> ();
  yield ((who == t) && (!done));
  call Fetch() -> (n);
  call Give(t) -> ();
  commit;
  yield (who != n);
}
proc Main(lend t : word(1)) -> () root { }
thread Main(1:1);
";

const OF_HOLDS: &str = "
initial: 1 formulas, 3 of 8 values, sum 6, weights 22
K1 step: 2 formulas, 0 of 16 values, sum 0, weights 26 30
K2: 3 formulas, 0 of 40 values, sum 0, weights 31 34 41
K3: 3 formulas, 0 of 40 values, sum 0, weights 50 64 86
K4: 3 formulas, 0 of 40 values, sum 0, weights 50 64 86
K5: 3 formulas, 8 of 80 values, sum 112, weights 74 86 110
K6: 3 formulas, 0 of 80 values, sum 0, weights 74 86 110
K7: 3 formulas, 0 of 80 values, sum 0, weights 74 86 110
K8: 1 formulas, 0 of 16 values, sum 0, weights 6
K9 gate: 3 formulas, 0 of 144 values, sum 0, weights 33 74 33
K9 invariant: 3 formulas, 0 of 144 values, sum 0, weights 39 77 33
K9 once: 3 formulas, 6 of 144 values, sum 98, weights 33 74 33
K9 stutter: 3 formulas, 3 of 144 values, sum 21, weights 37 78 37
K9 perform: 3 formulas, 0 of 144 values, sum 0, weights 67 108 67
K10: 12 formulas, 6 of 2592 values, sum 162, weights 41 49 66 60 82 90 107 101 41 49 66 60
K11: 4 formulas, 9 of 288 values, sum 164, weights 55 63 70 64";

#[test]
fn terms_with_permissions(rt: HostRuntime) -> Result<(), Fail> {
    let found = found_in(rt.alloc(), HOLDS, OF_HOLDS)?;
    assert_eq!(rt; found.as_str(), OF_HOLDS);
    Ok(())
}

/// Two steps: a yield at which a parameter isn't held any more, blocks that come to a false guard or a false assert behind a change or a
/// commit, a rank loop whose rank and invariant speak of globals, and the call of a procedure.
const MOVES: &str = "civl 2; layers 2; permissions 1;
global linear pool : word(2) layers 0 to 2;
global x : bool layers 0 to 0;
global y : bool layers 0 to 2;
init ((pool != 3:2) && (x || y));
invariant 1 ((pool != 3:2) || (x == y));
invariant 2 (y || (pool != 1:2));
action Swap() -> () choose () layers 0 to 0 right
  gate (x || (pool == 0:2)) guard (pool != 2:2) { x := y; y := x; }
action Shrink() -> (val o : bool) choose () layers 0 to 0 right
  gate true guard (pool != 0:2) { pool := (y ? (pool - 1:2) : pool); o := (!y); }
action Drop(take t : word(1)) -> () choose () layers 0 to 0 left
  gate (x || (t == 1:1)) guard true { pool := (pool | (1:2 << widen(t, 2))); x := false; }
action Copy(lend t : word(1)) -> () choose () layers 0 to 1 atomic
  gate y guard true { pool := (pool | (1:2 << widen(t, 2))); y := (t == 0:1); }
action Less() -> () choose () layers 0 to 1 right gate true guard (pool != 0:2) { pool := (y ? (pool - 1:2) : 1:2); }
action Turned() -> () choose () layers 0 to 1 atomic gate true guard (pool != 3:2) { y := (!y); }
action AtomMove(take t : word(1)) -> (val r : bool) choose (c : bool = y) layers 1 to 2 atomic
  gate (y || (t == 0:1)) guard (c || y) { r := c; pool := (pool - 1:2); y := c; }
action AtomTurn(lend t : word(1)) -> () choose () layers 2 to 2 atomic gate y guard (pool != 3:2) { y := (!y); }
action AtomBoth(take t : word(1)) -> (val r : bool) choose () layers 2 to 2 atomic
  gate true guard true { r := true; y := false; }
proc Move(take t : word(1)) -> (val r : bool) refines AtomMove with (y) layer 1 {
  var s : bool;
  call Shrink() -> (s);
  r := s;
  if s { } else { call Drop(t) -> (); }
  yield ((s || done) && (x || (pool == 1:2)));
  call Swap() -> ();
  assert s;
  commit;
  call Shrink() -> (s);
}
proc Turn(lend t : word(1)) -> () refines AtomTurn with () layer 2 {
  while rank (t == 1:1) by pool inv (((y == old(y)) || (t == 1:1)) && (old(done) => (done == (t == 0:1))))
    { call Less() -> (); }
  call Turned() -> ();
  commit;
}
proc Both(take t : word(1)) -> (val r : bool) refines AtomBoth with () layer 2 {
  call Move(t) -> (r);
  commit;
}
";

const OF_MOVES: &str = "
initial: 1 formulas, 9 of 16 values, sum 81, weights 16
K1 step: 2 formulas, 1 of 32 values, sum 5, weights 24 22
K2: 7 formulas, 19 of 160 values, sum 286, weights 26 31 46 52 29 21 37
K3: 19 formulas, 61 of 416 values, sum 781, weights 60 71 93 89 66 50 71 82 104 100 77 61 66 77 99 95 72 56 81
K4: 19 formulas, 5 of 416 values, sum 48, weights 60 71 93 89 66 50 71 82 104 100 77 61 66 77 99 95 72 56 81
K5: 6 formulas, 17 of 256 values, sum 328, weights 93 104 128 124 99 83
K6: 6 formulas, 3 of 256 values, sum 84, weights 93 104 128 124 99 83
K7: 6 formulas, 0 of 256 values, sum 0, weights 93 104 128 124 99 83
K8: 1 formulas, 0 of 32 values, sum 0, weights 11
K9 gate: 5 formulas, 45 of 848 values, sum 6852, weights 84 70 22 72 42
K9 invariant: 5 formulas, 4 of 848 values, sum 70, weights 94 70 37 87 42
K9 once: 5 formulas, 42 of 848 values, sum 11786, weights 84 70 22 72 42
K9 stutter: 5 formulas, 29 of 848 values, sum 8646, weights 88 74 25 78 46
K9 perform: 5 formulas, 27 of 848 values, sum 1953, weights 100 86 31 90 49
K9 rank: 1 formulas, 8 of 512 values, sum 1384, weights 86
K10 step 1 Move from 0: 2 formulas, 24 of 544 values, sum 7944, weights 100 118
K10 step 1 Move from 1 invariant: 1 formulas, 0 of 256 values, sum 0, weights 86
K10 step 1 Move from 1 yield: 1 formulas, 72 of 4096 values, sum 187752, weights 98
K10 step 2: 3 formulas, 1 of 560 values, sum 6, weights 27 83 54
K11: 7 formulas, 27 of 1120 values, sum 5925, weights 62 70 47 55 39 47 49";

#[test]
fn terms_of_two_steps(rt: HostRuntime) -> Result<(), Fail> {
    let found = found_in(rt.alloc(), MOVES, OF_MOVES)?;
    assert_eq!(rt; found.as_str(), OF_MOVES);
    Ok(())
}

/// Rows, all operators, permissions that are given and taken, `if`s inside others, a loop inside one, and paths with more than two ends.
const WORKS: &str = "civl 2; layers 2; permissions 2;
global linear pool : word(4) layers 0 to 2;
global cells : row(2, 3) layers 0 to 1;
global kept : row(1, 5) layers 1 to 2;
global flag : bool layers 0 to 2;
init ((pool == (~3:4)) && ((cells == fill(2, 5:3)) && (flag => (kept != set(fill(1, 0:5), 1:1, 31:5)))));
invariant 1 ((get(cells, 1:2) udiv 3:3) <= (get(cells, slice(pool, 2, 1)) urem 2:3));
invariant 1 (flag || (join(get(kept, 0:1), 1:2) slt widen(pool, 7)));
invariant 2 ((get(kept, 1:1) * 3:5) sle (get(kept, 0:1) sar 1:5));
action Fetch(val i : word(2)) -> (give n : word(2), val c : word(3))
  choose (d : word(3) = get(cells, i), e : bool = flag) layers 0 to 0 right
  gate (i != 3:2) guard (e || (d < 4:3)) {
    n := (i ^ 1:2);
    c := (d | get(cells, (i & 2:2)));
    cells := set(cells, i, (- d));
    pool := (pool & (~(1:4 << widen((i ^ 1:2), 4))));
  }
action Store(lend s : word(2), take t : word(2), val v : word(3)) -> (val o : word(5))
  choose (f : word(5) = join(v, s)) layers 0 to 0 left
  gate ((pool >> 1:4) != widen(v, 4)) guard true {
    o := (f + widen(get(cells, s), 5));
    pool := (pool | (1:4 << widen(t, 4)));
    cells := (flag ? fill(2, v) : cells);
  }
action Look(lend s : word(2)) -> (val b : bool) choose () layers 0 to 1 both
  gate flag guard true { b := (flag && (s != 0:2)); }
action AtomWork(lend t : word(2), take u : word(2)) -> (give n : word(2), val o : word(5))
  choose (g : word(5) = 7:5, h : bool = false) layers 1 to 2 atomic
  gate ((t < u) || (get(kept, 0:1) == 3:5)) guard (h => (g <= 9:5)) {
    n := (u - 1:2);
    o := g;
    kept := set(kept, slice(u, 0, 0), (g * 3:5));
    pool := (pool | widen(u, 4));
    flag := (!h);
  }
action AtomTop(lend t : word(2), take u : word(2)) -> (val r : row(1, 5)) choose () layers 2 to 2 atomic
  gate true guard (kept == kept) { r := kept; flag := false; }
proc Work(lend t : word(2), take u : word(2)) -> (give n : word(2), val o : word(5))
  refines AtomWork with (o, (flag && (get(cells, t) == 1:3))) layer 1 {
  var c : word(3);
  var b : bool;
  linear m : word(2);
  var r : row(1, 5);
  call Fetch(u) -> (m, c);
  if (c < 3:3) {
    if (get(r, 1:1) == o) {
      b := (!b);
      yield ((done => b) && (t != u));
    } else {
      if b { commit; intro kept := set(kept, 0:1, (o + 1:5)); } else { r := fill(1, (o >> 2:5)); }
    }
    call Look(t) -> (b);
  } else {
    while rank (c != 0:3) by (c - 1:3) inv ((old(flag) == flag) && ((old(o) <= o) || (old(done) == done))) {
      c := (c - 1:3);
      if (c == 2:3) { call Look(t) -> (b); } else { }
    }
    assert (c == 0:3);
  }
  call Store(t, u, c) -> (o);
  while yield b inv (done && (kept == kept)) {
    call Look(m) -> (b);
  }
  call Fetch(1:2) -> (n, c);
}
proc Top(lend t : word(2), take u : word(2)) -> (val r : row(1, 5)) refines AtomTop with () layer 2 {
  linear p : word(2);
  var q : word(5);
  call Work(t, u) -> (p, q);
  commit;
  if (q == 3:5) { yield done; r := fill(1, q); } else { yield (!done); r := set(r, 0:1, q); }
  assert (q != 4:5);
}
proc Main(lend t : word(2), take u : word(2)) -> () root { }
thread Main(2:2, 1:2);
thread Main(3:2, (1:2 & 0:2));
";

const OF_WORKS: &str = "
initial: 0 formulas, 0 of 0 values, sum 0, weights 190
K1 step: 0 formulas, 0 of 0 values, sum 0, weights 299 222 306
K2: 0 formulas, 0 of 0 values, sum 0, weights 178 220 91 267
K3: 0 formulas, 0 of 0 values, sum 0, weights 496 538 306 306 356 120 406
K4: 0 formulas, 0 of 0 values, sum 0, weights 496 538 306 306 356 120 406
K5: 0 formulas, 0 of 0 values, sum 0, weights 538 596 356 306 356 120 406
K6: 0 formulas, 0 of 0 values, sum 0, weights 538 596 356 306 356 120 406
K7: 0 formulas, 0 of 0 values, sum 0, weights 538 596 356 306 356 120 406
K8: 0 formulas, 0 of 0 values, sum 0, weights 60 21
K9 gate: 0 formulas, 0 of 0 values, sum 0, weights 656 428 507 410 351 227 241
K9 invariant: 0 formulas, 0 of 0 values, sum 0, weights 698 442 541 424 354 227 241
K9 once: 0 formulas, 0 of 0 values, sum 0, weights 656 428 507 410 351 227 241
K9 stutter: 0 formulas, 0 of 0 values, sum 0, weights 758 462 575 478 401 252 266
K9 perform: 0 formulas, 0 of 0 values, sum 0, weights 1112 580 811 714 429 266 280
K9 rank: 0 formulas, 0 of 0 values, sum 0, weights 567
K10 step 1 Work from 0: 0 formulas, 0 of 0 values, sum 0, weights 982 751 839 825
K10 step 1 Work from 1: 0 formulas, 0 of 0 values, sum 0, weights 646 492 640 616
K10 step 1 Work from 2: 0 formulas, 0 of 0 values, sum 0, weights 724 570 718 694
K10 step 1 Work from 3: 0 formulas, 0 of 0 values, sum 0, weights 737 506 594 580
K10 step 2: 0 formulas, 0 of 0 values, sum 0, weights 699 476 479 459 351 353 473 365 367
K11: 0 formulas, 0 of 0 values, sum 0, weights 424 270 322 306 555 399 401";

#[test]
fn weights_of_rows_and_branches(rt: HostRuntime) -> Result<(), Fail> {
    let found = found_in(rt.alloc(), WORKS, OF_WORKS)?;
    assert_eq!(rt; found.as_str(), OF_WORKS);
    Ok(())
}
