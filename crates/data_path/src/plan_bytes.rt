//! The plan's bytes, read whole before anything is made of them.
ghost use Rattle.std.specs.Prelude.{◌≡◌, ◌<◌, ◌≤◌, ◌+◌, ℕ, length, vec_len, IfOk};
ghost use Rattle.outside.specs.Cause.{Cause};
ghost use Rattle.data_path.specs.PlanBytes.{IsFault, GaveFront, GaveNext};

use outside::{Bytes, Failed, Source};
use std::alloc::Global;

/// Why a plan's bytes couldn't be read.
#[derive(Clone, Copy, Debug, PartialEq, Eq)]
pub enum PlanBytesError {
    /// A read of the source failed.
    Fault(Failed),
    /// Memory was asked for, and refused.
    NoMemory,
}

/// How many bytes one read asks for, at most.
const CHUNK: usize = 4096;

/// Reads a source to its end, or until it gave `most` bytes.
///
/// `Fault` comes only where a read failed in this call. After an error the source may have given bytes,
/// which are lost.
pub fn read_all<P: Source>(
    alloc: Global,
    plan: &mut P,
    most: usize,
) -> Result<Bytes, PlanBytesError>
    ensures few { IfOk result (λ bytes. length bytes ≤ most) }
    ensures read { IfOk result (λ bytes. GaveFront (P.left plan.old) (P.left plan.new) most bytes) }
    ensures cause { Cause (P.fault_count plan.old) (P.fault_count plan.new) (IsFault result) }
{
    let mut bytes = Vec::new(alloc);
    let mut chunk = [0; CHUNK];
    while bytes.len() < most {
        let room = CHUNK.min(most - bytes.len());
        if read_some(plan, &mut chunk[..room], &mut bytes)? == 0 {
            break;
        }
    }
    Ok(Bytes::new(bytes))
}

/// Makes one read, whose bytes go to the end of `bytes`, and answers how many: 0 only at the source's end.
///
/// After an error `bytes` is as before.
fn read_some<P: Source>(
    plan: &mut P,
    chunk: &mut [u8],
    bytes: &mut Vec<u8>,
) -> Result<usize, PlanBytesError>
    requires { 0 < length chunk.old }
    ensures fits { IfOk result (λ n. n ≤ length chunk.new) }
    ensures len { IfOk result (λ n. vec_len bytes.new ≡ vec_len bytes.old + n) }
    ensures read { IfOk result (λ n. GaveNext (P.left plan.old) (P.left plan.new) n bytes.old.items bytes.new.items) }
    ensures cause { Cause (P.fault_count plan.old) (P.fault_count plan.new) (IsFault result) }
{
    let got = match plan.read(chunk) {
        Ok(got) => got,
        Err(failed) => return Err(PlanBytesError::Fault(failed)),
    };
    match bytes.extend_from_slice(&chunk[..got]) {
        Ok(()) => Ok(got),
        Err(_) => Err(PlanBytesError::NoMemory),
    }
}
