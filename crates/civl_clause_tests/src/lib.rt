//! Tests of words, gates, clauses, the search and the text of certificates, on small tables that were worked out by hand; and what a graph
//! of terms weighs, for programs that try terms ([`measuring`]).
#![tactic(auto)]

#[cfg(test)]
mod certificate_texts;
#[cfg(test)]
mod circuits;
#[cfg(test)]
mod dimacs;
#[cfg(test)]
mod folding;
#[cfg(test)]
mod lexing;
#[cfg(test)]
mod logs;
pub mod measuring;
#[cfg(test)]
mod provers;
#[cfg(test)]
mod searching;
#[cfg(test)]
mod strangers;
#[cfg(test)]
mod tellers;
#[cfg(test)]
mod terms;
#[cfg(test)]
mod words;
