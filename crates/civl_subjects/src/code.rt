// The rules of which something is told.
ghost use Rattle.std.specs.Prelude.{◌≡◌};
ghost use Rattle.civl_subjects.specs.Told.{code_of, layers_code, names_code, other_code, sorts_code};

/// A rule, by its code.
#[derive(Clone, Copy)]
pub(crate) enum Code {
    E10,
    E11,
    E12,
    E20,
    E21,
    E22,
    E23,
    E24,
    E30,
    E31,
    E32,
    E33,
    E34,
    E35,
    E40,
    E41,
    E43,
    E50,
    E51,
    E52,
    E53,
}

fn names_code(code: u32) -> Option<Code>
    ensures { result ≡ names_code code }
{
    if code == 10 {
        return Some(Code::E10);
    }
    if code == 11 {
        return Some(Code::E11);
    }
    if code == 12 {
        return Some(Code::E12);
    }
    None
}

fn sorts_code(code: u32) -> Option<Code>
    ensures { result ≡ sorts_code code }
{
    if code == 20 {
        return Some(Code::E20);
    }
    if code == 21 {
        return Some(Code::E21);
    }
    if code == 22 {
        return Some(Code::E22);
    }
    if code == 23 {
        return Some(Code::E23);
    }
    if code == 24 {
        return Some(Code::E24);
    }
    None
}

fn layers_code(code: u32) -> Option<Code>
    ensures { result ≡ layers_code code }
{
    if code == 30 {
        return Some(Code::E30);
    }
    if code == 31 {
        return Some(Code::E31);
    }
    if code == 32 {
        return Some(Code::E32);
    }
    if code == 33 {
        return Some(Code::E33);
    }
    if code == 34 {
        return Some(Code::E34);
    }
    if code == 35 {
        return Some(Code::E35);
    }
    None
}

fn other_code(code: u32) -> Option<Code>
    ensures { result ≡ other_code code }
{
    if code == 40 {
        return Some(Code::E40);
    }
    if code == 41 {
        return Some(Code::E41);
    }
    if code == 43 {
        return Some(Code::E43);
    }
    if code == 50 {
        return Some(Code::E50);
    }
    if code == 51 {
        return Some(Code::E51);
    }
    if code == 52 {
        return Some(Code::E52);
    }
    if code == 53 {
        return Some(Code::E53);
    }
    None
}

/// The rule with the code of this number, if something is told of it.
pub(crate) fn code_of(code: u32) -> Option<Code>
    ensures { result ≡ code_of code }
{
    if code < 20 {
        return names_code(code);
    }
    if code < 30 {
        return sorts_code(code);
    }
    if code < 40 {
        return layers_code(code);
    }
    other_code(code)
}
