// Prints the listing of the record on standard input, its first 4,096 bytes.
#![tactic(auto)]

use std::io;

fn main(rt: HostRuntime) -> io::Result<()> {
    let mut buf = [0u8; 4096];
    let mut text = [0u8; 2048];
    let k = printing::read_full(&mut rt.stdin(), &mut buf);
    let m = listing::listing::list(&buf[..k], &mut text);
    printing::text(&rt, &text[..m])
}
