// Tells the frames that are heard in the capture on standard input.

#![tactic(auto)]

fn main(rt: HostRuntime) {
    let outcome = hearing::run(&mut rt.stdin(), &mut rt.stdout());
    text::tell(&rt, outcome);
}
