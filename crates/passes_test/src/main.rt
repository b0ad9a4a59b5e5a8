// Replays the stored answers for rewriting called alone. oracle/store writes its stdin.
#![tactic(auto)]

use answer_replay::Asked;
use std::io;

fn main(rt: HostRuntime) -> io::Result<()> {
    answer_replay::replay_input(&mut rt.stdin(), &mut rt.stdout(), Asked::Passes)?;
    Ok(())
}
