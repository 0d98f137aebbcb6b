//! Tests of `data_path` over its public calls.
#![tactic(auto)]

#[cfg(test)]
mod cache_lines;
#[cfg(test)]
mod calls;
#[cfg(test)]
mod damaged;
#[cfg(test)]
mod files;
#[cfg(test)]
mod one_file;
#[cfg(test)]
mod outcomes;
#[cfg(test)]
mod own_lines;
#[cfg(test)]
mod plan_bytes;
#[cfg(test)]
mod plans;
#[cfg(test)]
mod sizes;
#[cfg(test)]
mod told;
#[cfg(test)]
mod top_call;
#[cfg(test)]
mod two_files;
