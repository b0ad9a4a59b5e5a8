// Replays the stored listings at the limits, each reached and passed by one. oracle/store writes its stdin.
#![tactic(auto)]

use answer_replay::Asked;
use std::io;

fn main(rt: HostRuntime) -> io::Result<()> {
    answer_replay::replay_input(&mut rt.stdin(), &mut rt.stdout(), Asked::Listing)?;
    Ok(())
}
