// How long it takes to see that a medium of a million cells has no header, as a multiple of a plain loop over the same bytes.
//
// Times go to standard error, since they differ from run to run. What was found goes to standard output.
#![tactic(auto)]

use code::{TextCode, Utf8, Utf16Be, Utf16Le};
use medium::Flat;
use packet::first_header;
use std::io;
use std::time::Instant;
use text::Text;

const CELLS: usize = 1_048_576;

const ROUNDS: u8 = 20;

// What the work gives, and how many nanoseconds it takes.
fn timed<T: Drop, F: FnOnce() -> T>(rt: &HostRuntime, work: F) -> io::Result<(T, u64)>
    requires { F.IsAlwaysCallable work }
{
    let start = Instant::now(rt)?;
    let made = work();
    let nanos = start.elapsed(rt)?.as_nanos();
    Ok((made, u64::try_from(nanos).unwrap_or(u64::MAX)))
}

// How many bytes equal `b`: the plain loop.
//
// It stays a loop by the method of docs/benchmarks.md, where every figure is a ratio to a plain loop. (As a chain of filter and count it
// took 14.1 ms for 20 rounds over bytes 0x3c, and 15.4 as a loop.)
fn count(bytes: &[u8], b: u8) -> u64 {
    let mut n: u64 = 0;
    for x in bytes {
        if *x == b {
            n = n.saturating_add(1);
        }
    }
    n
}

fn time_plain(rt: &HostRuntime, bytes: &[u8]) -> io::Result<u64> {
    let (all, nanos) = timed(rt, || {
        // As a fold this takes 12.2 ms over bytes 0x55, and 10.4 as a loop.
        let mut all: u64 = 0;
        for i in 0..ROUNDS {
            all = all.saturating_add(count(bytes, 0x3b + i % 2));
        }
        all
    })?;
    println!(rt; "the plain loop counted {all}")?;
    Ok(nanos)
}

fn time_code<C: TextCode>(
    rt: &HostRuntime,
    name: &str,
    text: &Text<C, Flat>,
    plain: u64,
) -> io::Result<()> {
    let (headers, nanos) = timed(rt, || {
        // As a chain of filter and count this takes 57 ms in UTF-8 over bytes 0x55, and 10 to 15 as a loop.
        let mut headers: u32 = 0;
        for _ in 0..ROUNDS {
            if first_header(text).is_some() {
                headers = headers.saturating_add(1);
            }
        }
        headers
    })?;
    println!(rt; "{name}: headers found {headers}")?;
    let tenths = nanos.saturating_mul(10) / plain.max(1);
    let whole = tenths / 10;
    let rest = tenths % 10;
    eprintln!(rt; "{name}: {nanos} ns, {whole}.{rest} times the plain loop's {plain} ns")
}

fn run(rt: &HostRuntime, fill: u8) -> io::Result<()> {
    println!(rt; "a million cells of {fill}")?;
    let mut bytes = vec![in rt.alloc(); fill; CELLS]?;
    let plain = time_plain(rt, bytes.as_slice())?;
    let medium = Flat::new(bytes.as_mut_slice());
    time_code(rt, "UTF-8", &Text::<Utf8, Flat>::new(&medium), plain)?;
    time_code(rt, "UTF-16BE", &Text::<Utf16Be, Flat>::new(&medium), plain)?;
    time_code(rt, "UTF-16LE", &Text::<Utf16Le, Flat>::new(&medium), plain)
}

// Bytes that begin no header in any code, then zeros, which begin one in UTF-16BE, then `<`, which begins one in the other two.
fn main(rt: HostRuntime) -> io::Result<()> {
    run(&rt, 0x55)?;
    run(&rt, 0)?;
    run(&rt, 0x3c)
}
