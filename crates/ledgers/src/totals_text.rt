//! The two printed lines of a run's counts.
ghost use Rattle.std.specs.Prelude.{◌≡◌, ◌+◌, ◌≤◌, ◌++◌, ℕ, length, take, OnErr, OnOk};
ghost use Rattle.outside.specs.Cause.{HasCause};
ghost use Rattle.outside.specs.Told.{Extended};
ghost use Rattle.ledgers.specs.Text.{board_text, cache_text, ends_text, held, totals_text};

use crate::line::Line;
use crate::{BoardTotals, CacheTotals};
use outside::{Failed, Sink};

/// Adds the line of the cache.
fn put_cache(line: &mut Line, cache: &CacheTotals)
    requires { line.old.len ≤ 512 }
    ensures held { held line.new ≡ held line.old ++ cache_text cache.now }
    ensures len { line.new.len ≤ line.old.len + 256 }
{
    line.put_count(b"cache hit ", cache.hit);
    line.put_count(b" filled ", cache.filled);
    line.put_count(b" bypass ", cache.bypass);
    line.put_count(b" evicted ", cache.evicted);
    line.put_count(b" moved ", cache.moved);
    line.put(b"\n");
}

/// Adds how attempts ended.
fn put_ends(line: &mut Line, board: &BoardTotals)
    requires { line.old.len ≤ 640 }
    ensures held { held line.new ≡ held line.old ++ ends_text board.now }
    ensures len { line.new.len ≤ line.old.len + 160 }
{
    line.put_count(b" killed ", board.killed);
    line.put_count(b" finished ", board.finished);
    line.put_count(b" gaveup ", board.gave_up);
}

/// Adds the line of the board.
fn put_board(line: &mut Line, board: &BoardTotals)
    requires { line.old.len ≤ 512 }
    ensures held { held line.new ≡ held line.old ++ board_text board.now }
    ensures len { line.new.len ≤ line.old.len + 320 }
{
    line.put_count(b"board offered ", board.offered);
    line.put_count(b" started ", board.started);
    put_ends(line, board);
    line.put_count(b" inline ", board.inline_runs);
    line.put(b"\n");
}

/// Writes the line of a run's cache alone, in one write. It takes no memory.
///
/// `Failed` comes only where the sink's faults rose, and a front of the line was written.
///
/// Source: this project's own.
pub fn write_cache<K: Sink>(cache: &CacheTotals, out: &mut K) -> Result<(), Failed>
    ensures written { OnOk result (Extended (K.content out.old) (K.content out.new) (cache_text cache.now)) }
    ensures front { OnErr result ((n : ℕ) × (n ≤ length (cache_text cache.now))
        × Extended (K.content out.old) (K.content out.new) (take n (cache_text cache.now))) }
    ensures cause { HasCause (K.fault_count out.old) (K.fault_count out.new) result }
{
    let mut line = Line::new();
    put_cache(&mut line, cache);
    out.write(&line.bytes[..line.len])
}

/// Writes the two lines of a run's counts, that of the cache and that of the board, in one write. It takes no memory.
///
/// `Failed` comes only where the sink's faults rose, and a front of the lines was written.
///
/// Source: this project's own.
pub fn write_totals<K: Sink>(
    cache: &CacheTotals,
    board: &BoardTotals,
    out: &mut K,
) -> Result<(), Failed>
    ensures written { OnOk result (Extended (K.content out.old) (K.content out.new) (totals_text cache.now board.now)) }
    ensures front { OnErr result ((n : ℕ) × (n ≤ length (totals_text cache.now board.now))
        × Extended (K.content out.old) (K.content out.new) (take n (totals_text cache.now board.now))) }
    ensures cause { HasCause (K.fault_count out.old) (K.fault_count out.new) result }
{
    let mut line = Line::new();
    put_cache(&mut line, cache);
    put_board(&mut line, board);
    out.write(&line.bytes[..line.len])
}
