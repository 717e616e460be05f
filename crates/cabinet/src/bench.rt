// The bench: the chain of two monitors, what is sent to it, and what comes back at its two ends.
ghost use Rattle.std.specs.Prelude.{◌≤◌};

use crate::half::Half;
use crate::seen::{CELL_REGISTERS, Register, Seen};
use chain::Answer;
use records::RECORD_SIZE;
use refusals::Refusal;
use std::fmt;

const TABLE_SIZE: usize = 2 * RECORD_SIZE;

// The codes of the cells, the near half's sixteen first. All but one lie within the thresholds of both halves. Cell 11 of the
// far half has 7000, which is 2.55 V: too low for its own half, and well enough by the other's thresholds.
pub(crate) static CELLS: [i16; 32] = [
    12010, 12004, 11998, 12021, 12015, 11987, 12002, 12008, 11993, 12017, 12000, 12006, 11995,
    12012, 12019, 12003, 13020, 13011, 13004, 13033, 12996, 13015, 13008, 13027, 13002, 13018,
    7000, 13009, 13024, 12991, 13013, 13006,
];

// The commands that our host sends.
#[derive(Clone, Copy)]
enum Command {
    WriteConfigurationB,
    ReadConfigurationB,
    ReadStatusD,
    ReadCellsA,
    ReadCellsB,
    ReadCellsC,
    ReadCellsD,
    ReadCellsE,
    ReadCellsF,
}

impl Command {
    // Three cells in each but the last, which has cell 16.
    const CELL_READS: [Command; CELL_REGISTERS] = [
        Command::ReadCellsA,
        Command::ReadCellsB,
        Command::ReadCellsC,
        Command::ReadCellsD,
        Command::ReadCellsE,
        Command::ReadCellsF,
    ];

    fn code(self) -> u16 {
        match self {
            Command::WriteConfigurationB => 0x0024,
            Command::ReadConfigurationB => 0x0026,
            Command::ReadStatusD => 0x0033,
            Command::ReadCellsA => 0x0004,
            Command::ReadCellsB => 0x0006,
            Command::ReadCellsC => 0x0008,
            Command::ReadCellsD => 0x000a,
            Command::ReadCellsE => 0x0009,
            Command::ReadCellsF => 0x000b,
        }
    }
}

// A frame of our host for two monitors. The most is a command and its check, and eight bytes for each monitor: its payload, or what its reply is
// clocked over. `night` and `balancing` have it too.
#[derive(Clone, Copy)]
pub(crate) struct Frame {
    bytes: [u8; 20],
    length: usize,
    ghost within: { length ≤ 20 },
}

// A cabinet: its chain of two monitors, the near half's first.
#[derive(Drop)]
pub(crate) struct Cabinet {
    table: [u8; TABLE_SIZE],
}

impl Frame {
    #[tactic(auto, unfolding(host::specs::Frames::built, host::specs::Frames::build_refusals, refusals::specs::Order::decide))]
    fn build(command: Command, values: &[u8]) -> Result<Frame, Refusal> {
        let mut bytes = [0; 20];
        let length = host::build(command.code(), 2, values, &mut bytes)?;
        Ok(Frame { bytes, length })
    }

    // What our host sends of it: as many bytes as were built.
    pub(crate) fn bytes(&self) -> &[u8] {
        &self.bytes[..self.length]
    }

    // The same as it comes after a spike on the third byte for the far half.
    pub(crate) fn struck(mut self, spike: u8) -> Frame {
        self.bytes[6] ^= spike;
        self
    }
}

// The write of the thresholds that were ordered for two halves, each to the monitor at that place. The halves are in the order in which our host
// asks for them, monitor 1 first. Each payload keeps its own check, so no monitor can tell whose it is.
pub(crate) fn thresholds_for(halves: [Half; 2]) -> Result<Frame, Refusal> {
    let [first, second] = halves;
    let mut values = [0; 12];
    let (for_first, for_second) = values.split_at_mut(6);
    for_first.copy_from_slice(&first.configuration_b());
    for_second.copy_from_slice(&second.configuration_b());
    Frame::build(Command::WriteConfigurationB, &values)
}

impl Cabinet {
    // A cabinet from its first day: no threshold set, no cell loaded.
    pub(crate) fn new() -> Cabinet {
        Cabinet {
            table: [0; TABLE_SIZE],
        }
    }

    // A write goes to the chain.
    pub(crate) fn send(&mut self, frame: &Frame) -> Result<Answer, Refusal> {
        chain::handle(&mut self.table, frame.bytes(), &mut [])
    }

    // The codes of both halves, each to its own monitor.
    pub(crate) fn load(&mut self) -> Result<(), Refusal> {
        let (near, far) = CELLS.split_at(16);
        let near = loads::load(&mut self.table, Half::Near.monitor(), near);
        let far = loads::load(&mut self.table, Half::Far.monitor(), far);
        near.and(far)
    }

    // Both monitors' replies to a read, as they come at the near end: monitor 1 first.
    fn reply_to(&mut self, command: Command) -> Result<[u8; 16], Refusal> {
        let frame = Frame::build(command, &[])?;
        let mut reply = [0; 16];
        chain::handle(&mut self.table, frame.bytes(), &mut reply)?;
        Ok(reply)
    }

    // A half's part of a register, as the host picks it from the two replies by the counter that it expects. What comes to port A from monitor 2 is
    // damaged, each time: one bit is turned over on the way. At the other end the same payloads come, monitor 2 first.
    fn read(&mut self, command: Command, half: Half, expected: u8) -> Register {
        let sent = self.reply_to(command).unwrap_or([0; 16]);
        let mut a = sent;
        a[8] ^= 1;
        let mut b = sent;
        b.rotate_left(8);
        let monitor = half.monitor();
        let part = ports::part_of(&a, &b, 2, monitor, expected);
        Register {
            bytes: part.try_into().unwrap_or([0; 8]),
            port: ports::port_of(&a, &b, 2, monitor, expected).ok(),
        }
    }

    // All the registers of a half, each read from both ends.
    pub(crate) fn look(&mut self, half: Half, expected: u8) -> Seen {
        let configuration_b = self.read(Command::ReadConfigurationB, half, expected);
        let status_d = self.read(Command::ReadStatusD, half, expected);
        let mut cells = [Register::UNREAD; CELL_REGISTERS];
        for (register, command) in cells.iter_mut().zip(Command::CELL_READS) {
            *register = self.read(command, half, expected);
        }
        Seen::of(half, expected, configuration_b, status_d, cells)
    }
}

// The bytes of a frame: a command, and payloads with a bar before each. `balancing` and `spikes` show them too: a function of a library needs a promise and its line in the first demand.
#[derive(Drop)]
pub(crate) struct OnTheWire<'a>(pub &'a [u8]);

impl fmt::Display for OnTheWire<'_> {
    fn fmt<W: fmt::Write>(&self, f: &mut fmt::Formatter<W>) -> fmt::Result {
        for (i, byte) in self.0.iter().enumerate() {
            if i % 8 == 4 {
                write!(f, " |")?;
            }
            write!(f, " {byte:02x}")?;
        }
        Ok(())
    }
}
