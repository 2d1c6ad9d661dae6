// Plays journals on a fresh station and writes what they come to for each farm.
#![tactic(auto)]

fn main(rt: HostRuntime) {
    player::run(&rt, player::Job::Report);
}
