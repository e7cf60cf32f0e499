//! Examples of the calls of the crates that the program and an embedding service stand on, a module for each group of
//! layers. What each value should be is told by docs/FORMAT.md, docs/MODEL.md and the protocols. What a whole run
//! shows is no test here: it stands in `tests/cases`.
#![tactic(auto)]

#[cfg(test)]
mod bundles;
#[cfg(test)]
mod codecs;
#[cfg(test)]
mod desk;
#[cfg(test)]
mod given;
#[cfg(test)]
mod judgement;
#[cfg(test)]
mod told;
