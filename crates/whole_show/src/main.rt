// Whole shows on the proved functions: frames made by a seed, the sender, its packets, a channel made by a seed, the joiner. Each is
// held to what the theorem of demand 3 says of it, and the sender's counts of what was dropped for the mtu to the paper's sentences: both
// computed here, from the frames' units and the arrivals alone.
#![tactic(auto)]

mod account;
mod buffers;
mod channel;
mod groups;
mod play;
mod random;
mod send;
mod show;
mod strings;
mod theorem;
mod units;

use account::Account;
use buffers::Buffers;
use groups::Groups;
use send::Sent;
use show::Show;
use std::io;
use strings::{Full, Strings};

// One show, added to an account.
fn run(seed: usize, buffers: &mut Buffers, account: &mut Account) -> Result<(), Full> {
    let show = Show::of(seed);
    let mut units = Strings::new();
    let mut sent = Sent::new();
    let mut groups = Groups::new();
    units::make(&show, &mut units)?;
    send::send(&show, &units, buffers, &mut sent)?;
    groups::of(&show, &units, &mut groups)?;
    account.sent(&groups, &sent);
    play::play(&show, &sent.packets, &groups, buffers, account);
    Ok(())
}

// Shows from one up to another, as one account: one for which a list has no room is unlike what is said of it.
fn shows(rt: &HostRuntime, name: &str, from: usize, to: usize) -> io::Result<()> {
    let mut buffers = Buffers::new();
    let mut account = Account::default();
    for seed in from..to {
        let played = run(seed, &mut buffers, &mut account);
        account.check(played.is_ok());
    }
    println!(rt; "{name}{account}")
}

fn main(rt: HostRuntime) -> io::Result<()> {
    rt.println(
        "shows      packets groups pairs pairs-dropped arrived accepted late foreign unreadable missed handed-out bytes unlike-the-theorem",
    )?;
    shows(&rt, "clean     ", 0, 1)?;
    shows(&rt, "lossy     ", 1, 2)?;
    shows(&rt, "everything", 2, 3)?;
    shows(&rt, "further   ", 3, 1003)
}
