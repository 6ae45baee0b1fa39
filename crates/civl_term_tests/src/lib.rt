//! Tests of the terms and the weights of formulas: how many there are, at how many of the values of their variables they are true, and at
//! which, as a sum of numbers, and what each of them weighs is what bench/oracle.py works out, a program in Python that knows neither the
//! code nor its definitions.
#![tactic(auto)]

#[cfg(test)]
mod counting;
#[cfg(test)]
mod kinds;
#[cfg(test)]
mod models;
#[cfg(test)]
mod valuations;
