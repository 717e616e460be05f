// The commands that our host sends.

use std::fmt;

#[derive(Clone, Copy, Debug, PartialEq, Eq)]
pub(crate) enum Command {
    WritePwmA,
    ReadPwmA,
    WritePwmB,
    ReadPwmB,
    WriteConfigurationB,
    Mute,
    Unmute,
}

impl Command {
    pub(crate) fn code(self) -> u16 {
        match self {
            Command::WritePwmA => 0x0020,
            Command::ReadPwmA => 0x0022,
            Command::WritePwmB => 0x0021,
            Command::ReadPwmB => 0x0023,
            Command::WriteConfigurationB => 0x0024,
            Command::Mute => 0x0028,
            Command::Unmute => 0x0029,
        }
    }
}

// By its name in the sheet.
impl fmt::Display for Command {
    fn fmt<W: fmt::Write>(&self, f: &mut fmt::Formatter<W>) -> fmt::Result {
        f.write_str(match self {
            Command::WritePwmA => "WRPWMA",
            Command::ReadPwmA => "RDPWMA",
            Command::WritePwmB => "WRPWMB",
            Command::ReadPwmB => "RDPWMB",
            Command::WriteConfigurationB => "WRCFGB",
            Command::Mute => "MUTE",
            Command::Unmute => "UNMUTE",
        })
    }
}
