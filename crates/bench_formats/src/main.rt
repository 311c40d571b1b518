//! For measurements: `bench_formats CALL TIMES` reads a text from standard input, makes the call so
//! many times, and prints how many of the calls succeeded. It is no part of the product.
#![tactic(auto)]

use avro_wire::Text;
use serde_json::Value;
use snapshot_entries::{Snapshot, Tree};
use std::alloc::{AllocError, Global};
use std::env;
use std::io::Read;
use std::process::ExitCode;
use table_metadata::{TableMeta, print_meta, read_meta, upgraded, with_snapshot};

/// The words after the program's name: the call, and how many times.
fn words_of(rt: &HostRuntime) -> Option<(String, u64)> {
    let Ok(arguments) = env::args(rt) else {
        return None;
    };
    let mut words = arguments.skip(1);
    let call = words.next()?;
    let times = words.next()?;
    match times.as_str().parse() {
        Ok(times) => Some((call, times)),
        Err(_) => None,
    }
}

/// Parses the text as JSON alone.
fn parses(alloc: Global, text: &[u8]) -> bool {
    Value::from_slice(alloc, text).is_ok()
}

/// A snapshot of no rows that comes after the last one.
fn next_snapshot(alloc: Global, meta: &TableMeta) -> Result<Snapshot, AllocError> {
    Ok(Snapshot {
        id: i64::MAX,
        parent: meta.current,
        sequence: meta.last_sequence.saturating_add(1),
        time: meta.last_updated,
        list: Text::from_str(alloc, "t/list.avro")?,
        schema_id: Some(meta.schema_id),
        first_row_id: meta.next_row_id,
        added_rows: Some(0),
        rest: Tree::with_operation(alloc, "append")?,
    })
}

fn commits(alloc: Global, meta: &TableMeta) -> Result<TableMeta, AllocError> {
    let path = Text::from_str(alloc, "t/old.metadata.json")?;
    let snapshot = next_snapshot(alloc, meta)?;
    with_snapshot(alloc, meta, &path, snapshot, meta.next_row_id)
}

fn upgrades(alloc: Global, meta: &TableMeta) -> Result<TableMeta, AllocError> {
    let path = Text::from_str(alloc, "t/old.metadata.json")?;
    upgraded(alloc, meta, &path, 0)
}

/// Whether one call on the metadata succeeds.
fn succeeds(alloc: Global, call: &str, meta: &TableMeta) -> bool {
    match call {
        "print_meta" => print_meta(alloc, meta).is_ok(),
        "with_snapshot" => commits(alloc, meta).is_ok(),
        "upgraded" => upgrades(alloc, meta).is_ok(),
        _ => false,
    }
}

/// How many of so many calls on the text succeed.
fn count_on_text(alloc: Global, call: &str, text: &[u8], times: u64) -> u64 {
    let mut count = 0;
    for _ in 0..times {
        let succeeded = if call == "parse" {
            parses(alloc, text)
        } else {
            read_meta(alloc, text).is_ok()
        };
        if succeeded {
            count = u64::saturating_add(count, 1);
        }
    }
    count
}

/// How many of so many calls on the metadata of the text succeed.
fn count_on_meta(alloc: Global, call: &str, text: &[u8], times: u64) -> u64 {
    let Ok(meta) = read_meta(alloc, text) else {
        return 0;
    };
    let mut count = 0;
    for _ in 0..times {
        if succeeds(alloc, call, &meta) {
            count = u64::saturating_add(count, 1);
        }
    }
    count
}

fn main(rt: HostRuntime) -> ExitCode {
    let Some((call, times)) = words_of(&rt) else {
        return ExitCode::from(1);
    };
    let alloc = rt.alloc();
    let mut text = Vec::new(alloc);
    if rt.stdin().read_to_end(&mut text).is_err() {
        return ExitCode::from(5);
    }
    let count = match call.as_str() {
        "parse" | "read_meta" => count_on_text(alloc, call.as_str(), &text, times),
        _ => count_on_meta(alloc, call.as_str(), &text, times),
    };
    match println!(rt; "{count}") {
        Ok(()) => ExitCode::from(0),
        Err(_) => ExitCode::from(5),
    }
}
