//! Tests of the writer of files over its public calls: what is written is read back by the readers.
#![tactic(auto)]

#[cfg(test)]
mod one_file;
#[cfg(test)]
mod opaque;
#[cfg(test)]
mod tables;
#[cfg(test)]
mod worked;
#[cfg(test)]
mod writers;
