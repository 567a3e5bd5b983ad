// Lists a feed from standard input in a market book, and tells on standard error where that failed. A
// program of its own beside `demonstration`, which differs in its limits: each program is a crate with a main.
#![tactic(auto)]

fn main(rt: HostRuntime) {
    let ending = lister::list(&mut rt.stdin(), &mut rt.stdout(), book::market());
    lister::tell(&mut rt.stderr(), ending);
}
