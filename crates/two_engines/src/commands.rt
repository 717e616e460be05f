// The papers' commands, and how they are drawn. What is drawn, and in what order, stands in tools/two-engines-model too.
ghost use Rattle.std.specs.Prelude.{◌≤◌, ◌<◌, ◌*◌};

use crate::luck::Luck;
use crate::world::Monitors;

pub(crate) const COMMAND_COUNT: usize = 38;

// The commands in their order: reads, writes, bare.
const CODES: [u16; COMMAND_COUNT] = [
    0x0002, 0x0026, 0x0004, 0x0006, 0x0008, 0x000a, 0x0009, 0x000b, 0x0032, 0x0033, 0x002c, 0x003a,
    0x0022, 0x0023, 0x0059, 0x005b, 0x005d, 0x005f, 0x0001, 0x0024, 0x0039, 0x0717, 0x0715, 0x0020,
    0x0021, 0x0058, 0x005a, 0x005c, 0x005e, 0x0028, 0x0029, 0x002e, 0x0038, 0x0711, 0x002d, 0x002f,
    0x0041, 0x0040,
];

// Codes beside those, CMHB's 0043 among them.
pub(crate) const UNLISTED: [u16; 20] = [
    0x0000, 0x0003, 0x0005, 0x0007, 0x000c, 0x0025, 0x0027, 0x002a, 0x0030, 0x0031, 0x003b, 0x0042,
    0x0043, 0x0057, 0x0060, 0x0710, 0x0716, 0x0718, 0x0801, 0x8002,
];

const FIRST_WRITE: usize = 18;

const FIRST_BARE: usize = 29;

// The place of WRRR, and how many more chances it has than another: it must come up locked and unlocked, right and damaged.
const WRRR: usize = 20;

const MORE_WRRR: usize = 8;

// The same of CLRCMFLAG, whose frames have a length of their own.
const CLRCMFLAG: usize = 28;

const MORE_CLRCMFLAG: usize = 4;

#[derive(Clone, Copy)]
pub(crate) enum Kind {
    Read,
    Write,
    Bare,
}

// A command by its place in their order.
#[derive(Clone, Copy)]
pub(crate) struct Command {
    pub place: usize,
    ghost listed: { place < 38 },
}

impl Command {
    // Of all of them, some with more chances.
    pub(crate) fn draw(luck: &mut Luck) -> Command {
        let place = luck.draw(COMMAND_COUNT + MORE_WRRR + MORE_CLRCMFLAG);
        if place < COMMAND_COUNT {
            Command { place }
        } else if place < COMMAND_COUNT + MORE_WRRR {
            Command { place: WRRR }
        } else {
            Command { place: CLRCMFLAG }
        }
    }

    // Of all of them, each with the same chance.
    pub(crate) fn draw_evenly(luck: &mut Luck) -> Command {
        Command {
            place: luck.draw(COMMAND_COUNT),
        }
    }

    pub(crate) fn code(self) -> u16 {
        CODES[self.place]
    }

    pub(crate) fn kind(self) -> Kind {
        if self.place < FIRST_WRITE {
            Kind::Read
        } else if self.place < FIRST_BARE {
            Kind::Write
        } else {
            Kind::Bare
        }
    }

    // How many bytes each monitor has in a frame: data and two of check.
    pub(crate) fn width(self) -> usize
        ensures { (4 ≤ result) × (result ≤ 8) }
    {
        if self.place == CLRCMFLAG { 4 } else { 8 }
    }

    // How many bytes behind the command are right, for so many monitors.
    pub(crate) fn size(self, monitors: Monitors) -> usize
        ensures { result ≤ 256 }
    {
        match self.kind() {
            Kind::Bare => 0,
            Kind::Read | Kind::Write => self.width() * monitors.n,
        }
    }
}
