//! The program's own lines.
use crate::top_call::sink_of;
use data_path::{in_order, own_line};
use std::alloc::Global;

/// Whether an own line over a sink whose first write fails, or not, has that exit status, and is then what the sink holds.
fn own_line_answers(alloc: Global, failing: u64, code: u8, text: &[u8]) -> bool {
    match sink_of(alloc, failing) {
        Some(mut sink) => {
            own_line(&mut sink, b"folder fault\n", 6) == code && sink.written() == Some(text)
        }
        None => false,
    }
}

fn own_lines_answer(alloc: Global) -> bool {
    own_line_answers(alloc, 0, 6, b"folder fault\n") && own_line_answers(alloc, 1, 4, b"")
}

#[test]
fn an_own_line_has_its_status_or_that_of_a_write_fault(rt: HostRuntime) {
    assert!(rt; own_lines_answer(rt.alloc()));
}

/// Whether texts become names in their order, each once.
fn names_are(alloc: Global, texts: &[&str], names: &[&str]) -> Option<bool> {
    let mut owned = Vec::new(alloc);
    for text in texts {
        owned.push(String::from_str(alloc, text).ok()?).ok()?;
    }
    let ordered = in_order(alloc, owned).ok()?;
    Some(
        ordered
            .iter()
            .map(|name| name.as_str())
            .eq(names.iter().copied()),
    )
}

#[test]
fn names_are_sorted_by_their_bytes_each_once(rt: HostRuntime) {
    let texts = ["b", "a.orc", "B", "a", "b"];
    assert!(rt; names_are(rt.alloc(), &texts, &["B", "a", "a.orc", "b"]) == Some(true));
}
