// The commands that our host sends.

use std::fmt;

#[derive(Clone, Copy, Debug, PartialEq, Eq)]
pub(crate) enum Command {
    WriteSettings,
    ReadSettings,
    WriteLimits,
    ReadLimits,
    ClearFlags,
    ReadFlags,
    LeaveLpcm,
    EnterLpcm,
}

impl Command {
    pub(crate) fn code(self) -> u16 {
        match self {
            Command::WriteSettings => 0x0058,
            Command::ReadSettings => 0x0059,
            Command::WriteLimits => 0x005a,
            Command::ReadLimits => 0x005b,
            Command::ClearFlags => 0x005e,
            Command::ReadFlags => 0x005f,
            Command::LeaveLpcm => 0x0040,
            Command::EnterLpcm => 0x0041,
        }
    }
}

// By its name in the sheet.
impl fmt::Display for Command {
    fn fmt<W: fmt::Write>(&self, f: &mut fmt::Formatter<W>) -> fmt::Result {
        f.write_str(match self {
            Command::WriteSettings => "WRCMCFG",
            Command::ReadSettings => "RDCMCFG",
            Command::WriteLimits => "WRCMCELLT",
            Command::ReadLimits => "RDCMCELLT",
            Command::ClearFlags => "CLRCMFLAG",
            Command::ReadFlags => "RDCMFLAG",
            Command::LeaveLpcm => "CMDIS",
            Command::EnterLpcm => "CMEN",
        })
    }
}
