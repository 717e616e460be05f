// The list of commands: their codes, and what they do.
ghost use Rattle.std.specs.Prelude.{◌≡◌, cond, ◌≤◌, leb};
ghost use Rattle.records.specs.Commands.{command_of, commands, is_listed, most_monitors, data_size, payload_size, width_of, frame_length, reply_length};

use crate::record::{
    Part, RDCFGA, RDCFGB, RDCMCELLT, RDCMCFG, RDCMFLAG, RDCMGPIOT, RDCVA, RDCVB, RDCVC, RDCVD,
    RDCVE, RDCVF, RDPWMA, RDPWMB, RDRR, RDSID, RDSTATC, RDSTATD,
};

#[derive(Clone, Copy)]
pub enum Write {
    Wrcfga,
    Wrcfgb,
    Wrrr,
    Clrflag,
    Clovuv,
    Wrpwma,
    Wrpwmb,
    Wrcmcfg,
    Wrcmcellt,
    Wrcmgpiot,
    Clrcmflag,
}

#[derive(Clone, Copy)]
pub enum Bare {
    Mute,
    Unmute,
    Rstcc,
    Ulrr,
    Clrcell,
    Snap,
    Unsnap,
    Cmen,
    Cmdis,
}

#[derive(Clone, Copy)]
pub enum Command {
    // A read names a part of the record.
    Reads(Part),
    Writes(Write),
    Bares(Bare),
    // A code that is not listed.
    Unlisted,
}

// The command that a code stands for.
#[tactic(auto, unfolding(crate::specs::Commands::commands, crate::specs::Commands::command_of))]
pub fn command_of(code: u16) -> Command
    ensures { result ≡ command_of code commands }
{
    match code {
        0x0002 => Command::Reads(RDCFGA),
        0x0026 => Command::Reads(RDCFGB),
        0x0004 => Command::Reads(RDCVA),
        0x0006 => Command::Reads(RDCVB),
        0x0008 => Command::Reads(RDCVC),
        0x000a => Command::Reads(RDCVD),
        0x0009 => Command::Reads(RDCVE),
        0x000b => Command::Reads(RDCVF),
        0x0032 => Command::Reads(RDSTATC),
        0x0033 => Command::Reads(RDSTATD),
        0x002c => Command::Reads(RDSID),
        0x003a => Command::Reads(RDRR),
        0x0022 => Command::Reads(RDPWMA),
        0x0023 => Command::Reads(RDPWMB),
        0x0059 => Command::Reads(RDCMCFG),
        0x005b => Command::Reads(RDCMCELLT),
        0x005d => Command::Reads(RDCMGPIOT),
        0x005f => Command::Reads(RDCMFLAG),
        0x0001 => Command::Writes(Write::Wrcfga),
        0x0024 => Command::Writes(Write::Wrcfgb),
        0x0039 => Command::Writes(Write::Wrrr),
        0x0717 => Command::Writes(Write::Clrflag),
        0x0715 => Command::Writes(Write::Clovuv),
        0x0020 => Command::Writes(Write::Wrpwma),
        0x0021 => Command::Writes(Write::Wrpwmb),
        0x0058 => Command::Writes(Write::Wrcmcfg),
        0x005a => Command::Writes(Write::Wrcmcellt),
        0x005c => Command::Writes(Write::Wrcmgpiot),
        0x005e => Command::Writes(Write::Clrcmflag),
        0x0028 => Command::Bares(Bare::Mute),
        0x0029 => Command::Bares(Bare::Unmute),
        0x002e => Command::Bares(Bare::Rstcc),
        0x0038 => Command::Bares(Bare::Ulrr),
        0x0711 => Command::Bares(Bare::Clrcell),
        0x002d => Command::Bares(Bare::Snap),
        0x002f => Command::Bares(Bare::Unsnap),
        0x0041 => Command::Bares(Bare::Cmen),
        0x0040 => Command::Bares(Bare::Cmdis),
        _ => Command::Unlisted,
    }
}

// The same by its type. The `match` stands in `command_of`, which the theorems of `story` name and the engines call.
impl From<u16> for Command {
    ghost from_gives = { λ code command. command ≡ command_of code commands };

    fn from(code: u16) -> Command {
        command_of(code)
    }
}

pub fn is_listed(command: Command) -> bool
    ensures { result ≡ is_listed command }
{
    !matches!(command, Command::Unlisted)
}

pub const MOST_MONITORS: usize = 32;
// The bytes of one monitor's reply: six of data, and their seal.
pub const PAYLOAD_SIZE: usize = 8;

// The two bytes that seal data: the counter, and the check.
pub const SEAL_SIZE: usize = 2;

// The data bytes that a write sends to each monitor: two of CLRCMFLAG, six of each other.
pub fn data_size(what: Write) -> usize
    ensures value { result ≡ data_size what }
    ensures upper_bound { result ≤ 6 }
{
    match what {
        Write::Clrcmflag => 2,
        _ => 6,
    }
}

// The bytes of each monitor in a frame, and of its window.
pub fn width_of(command: Command) -> usize
    ensures value { result ≡ width_of command }
    ensures upper_bound { result ≤ payload_size }
{
    match command {
        Command::Writes(what) => data_size(what) + SEAL_SIZE,
        _ => PAYLOAD_SIZE,
    }
}

// The length of the frame of a command for n monitors, and 0 for more monitors than a chain has.
pub fn frame_length(command: Command, n: usize) -> usize
    ensures { result ≡ cond (leb n most_monitors) (frame_length command n) 0 }
{
    if MOST_MONITORS < n {
        return 0;
    }
    match command {
        Command::Reads(_) | Command::Writes(_) => 4 + width_of(command) * n,
        Command::Bares(_) | Command::Unlisted => 4,
    }
}

// The length of the reply of n monitors to a command, and 0 for more monitors than a chain has: only a read has one.
pub fn reply_size(command: Command, n: usize) -> usize
    ensures { result ≡ cond (leb n most_monitors) (reply_length command n) 0 }
{
    if n > MOST_MONITORS {
        return 0;
    }
    match command {
        Command::Reads(_) => PAYLOAD_SIZE * n,
        _ => 0,
    }
}
