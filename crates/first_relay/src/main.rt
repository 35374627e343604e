// The example of docs/BY-HAND.md, 'A relay, in feet': an image relayed by 400 and 400 feet on X, and printed.

#![tactic(auto)]

use std::io;

// The octets in hexadecimal, two digits each, and the end of the line.
fn print_image(rt: &impl Print, image: &[u8]) -> io::Result<()> {
    for octet in image {
        print!(rt; "{octet:02x}")?;
    }
    println!(rt;)
}

// On a refusal nothing is written, and its number is printed.
fn relay_into(
    rt: &impl Print,
    image: &[u8],
    xs: &[i32],
    ys: &[i32],
    buffer: &mut [u8],
) -> io::Result<()> {
    match link1::relay(image, xs, ys, buffer) {
        Ok(()) => print_image(rt, buffer),
        Err(refusal) => print!(rt; "{}", refusal.number),
    }
}

fn main(rt: HostRuntime) -> io::Result<()> {
    let image = *b"\x00\xc4\x80\x80\x80\x80\x80\x80\x80\x80\x80\x80\x80\x80\x80\xbb";
    let xs = [400i32, 400];
    let ys = [0i32];
    let mut buffer = [0u8; 16];
    relay_into(&rt, &image, &xs, &ys, &mut buffer)
}
