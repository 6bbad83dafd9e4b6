// Nomination files worked by hand, run as tests of the code.
#![tactic(auto)]

#[cfg(test)]
mod field_tests;
#[cfg(test)]
mod intake_tests;
#[cfg(test)]
mod reading_tests;
#[cfg(test)]
mod writing_tests;
