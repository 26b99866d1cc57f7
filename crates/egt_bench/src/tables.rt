//! One class a run: how long its table is built and checked, beside those that it rests on, which are read from the
//! files of a folder, and how much memory was in use at most.
use egt_check::{Library, check};
use egt_class::{Class, by_name, name};
use egt_commands::loading::load_below;
use egt_commands::saving::save;
use egt_index::size;
use egt_sweep::build;
use egt_table::Table;
use std::time::Instant;
use std::{fs, io};

/// How often the table is checked: the quickest time is told.
const CHECKS: u32 = 3;

/// Prints seconds and nanoseconds a code of what was done.
fn print_time(rt: &HostRuntime, class: Class, done: &str, nanos: u128) -> io::Result<()> {
    let codes = u128::from(size(class)).max(1);
    let class = name(class);
    println!(rt;
        "{class} {done}: {} ms, {} ns a code of {codes}",
        nanos / 1_000_000,
        nanos / codes
    )
}

/// Prints the most memory that the process had, as Linux tells it; nothing where there is no such file.
fn print_memory(rt: &HostRuntime) -> io::Result<()> {
    if let Ok(status) = fs::read_to_string(rt, "/proc/self/status") {
        for line in status.as_str().lines() {
            if line.starts_with("VmHWM") {
                println!(rt; "memory at most: {line}")?;
            }
        }
    }
    Ok(())
}

/// Builds the class's table, and prints how long that took.
fn time_build(rt: &HostRuntime, class: Class, library: &Library) -> io::Result<Option<Table>> {
    let start = Instant::now(rt)?;
    match build(rt.alloc(), class, library, 32_000) {
        Ok(table) => {
            print_time(rt, class, "build", start.elapsed(rt)?.as_nanos())?;
            Ok(Some(table))
        }
        Err(_) => Ok(None),
    }
}

/// The nanoseconds that one check of the table takes, if it passes.
fn check_nanos(rt: &HostRuntime, table: &Table, library: &Library) -> io::Result<Option<u128>> {
    let start = Instant::now(rt)?;
    let passed = check(table, library).is_ok();
    let nanos = start.elapsed(rt)?.as_nanos();
    Ok(if passed { Some(nanos) } else { None })
}

/// Checks the table, and prints how long the quickest check took, if all pass.
fn time_check(rt: &HostRuntime, table: &Table, library: &Library) -> io::Result<()> {
    let mut quickest = u128::MAX;
    for _ in 0..CHECKS {
        match check_nanos(rt, table, library)? {
            Some(nanos) => quickest = quickest.min(nanos),
            None => return println!(rt; "a true table was refused"),
        }
    }
    print_time(rt, table.class(), "check", quickest)
}

/// Builds and checks the class's table beside those of the library, and writes its file.
fn bench_class(rt: &HostRuntime, folder: &str, class: Class, library: &Library) -> io::Result<()> {
    match time_build(rt, class, library)? {
        Some(table) => {
            time_check(rt, &table, library)?;
            print_memory(rt)?;
            match save(rt, folder, &table) {
                Ok(()) => Ok(()),
                Err(fault) => println!(rt; "{fault}"),
            }
        }
        None => println!(rt; "no table"),
    }
}

/// Builds the table of the class named beside those of the folder, checks it, and writes its file.
pub fn bench_table(rt: &HostRuntime, folder: &str, class: &str) -> io::Result<()> {
    let Some(class) = by_name(class) else {
        return println!(rt; "no class");
    };
    match load_below(rt, folder, class) {
        Ok(library) => bench_class(rt, folder, class, &library),
        Err(fault) => println!(rt; "{fault}"),
    }
}
