//! The program: reads forms from standard input and answers each line as soon as it has ended.
#![tactic(auto)]

use session::Session;
use std::io;
use std::io::{Read, Write};

// Feeds the session whatever has come, and writes its answers before reading on.
fn pump(rt: &HostRuntime, session: &mut Session) -> io::Result<()> {
    let mut input = rt.stdin();
    let mut output = rt.stdout();
    let mut out = Vec::new(rt.alloc());
    let mut buf = [0u8; 16384];
    // Counted, since every loop is proved to end.
    for _ in 0..u64::MAX {
        let n = input.read(&mut buf)?;
        if n == 0 {
            break;
        }
        session.feed(&buf[..n], &mut out)?;
        output.write_all(out.as_slice())?;
        out.clear();
    }
    Ok(())
}

fn main(rt: HostRuntime) -> io::Result<()> {
    let mut session = Session::new(rt.alloc());
    pump(&rt, &mut session)?;
    let mut out = Vec::new(rt.alloc());
    session.finish(&mut out)?;
    rt.stdout().write_all(out.as_slice())
}
