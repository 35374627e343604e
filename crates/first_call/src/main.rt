// Opens an image, and prints both labels or why it was refused.

#![tactic(auto)]

use link1::Message;
use std::io;

fn print_label(rt: &impl Print, m: Message) -> io::Result<()> {
    println!(rt; "{}", link1::label(link1::kind_of(m)))
}

fn main(rt: HostRuntime) -> io::Result<()> {
    let image = *b"\x00\xc4\x80\x80\x80\x80\x80\x80\x80\x80\x80\x80\x80\x80\x80\xbb";
    match link1::open(&image) {
        Ok((first, second)) => {
            print_label(&rt, first)?;
            print_label(&rt, second)
        }
        Err(refusal) => print!(rt; "{}", refusal.number),
    }
}
