//! Tests of the seal of connections between sites: tags, sealed lines, first lines, files of keys, connections from
//! their first lines on and their ends, with the vectors of RFC 4231 and RFC 8439 and the rows that `bench/seal.py`
//! prints. A crate of tests alone, as `record_tests` is.
#![tactic(auto)]

#[cfg(test)]
mod bytes;
#[cfg(test)]
mod drains;
#[cfg(test)]
mod first_lines;
#[cfg(test)]
mod keys;
#[cfg(test)]
mod links;
#[cfg(test)]
mod own_files;
#[cfg(test)]
mod rows;
#[cfg(test)]
mod seals;
#[cfg(test)]
mod sources;
#[cfg(test)]
mod tags;
#[cfg(test)]
mod wires;
