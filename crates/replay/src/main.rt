// Plays journals on a fresh station and writes a line for each record.
#![tactic(auto)]

fn main(rt: HostRuntime) {
    player::run(&rt, player::Job::Replay);
}
