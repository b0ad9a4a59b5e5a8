// Replays the stored answers for the slowest call: telling code, code of random bytes, and finished code. oracle/store writes its stdin.
#![tactic(auto)]

use answer_replay::Asked;
use std::io;

fn main(rt: HostRuntime) -> io::Result<()> {
    answer_replay::replay_input(&mut rt.stdin(), &mut rt.stdout(), Asked::Slowest)?;
    Ok(())
}
