// Which write needs its check right, and what a taken write does to its bytes of a record, as rules.
ghost use Rattle.std.specs.Prelude.{◌≡◌};
ghost use Rattle.writes.specs.Writes.{rules_of, stores_whole};

use records::{
    CONFIGURATION_A, CONFIGURATION_B, LPCM_CELL_THRESHOLDS, LPCM_CONFIGURATION, LPCM_FLAGS,
    LPCM_GPIO_THRESHOLDS, PWM_A, PWM_B, RETENTION, STATUS_C, STATUS_D, Write,
};

// Whether a write is taken only with its data check right, where its data bytes go, and what it does to each bit there, by masks of which as
// many bytes count as it has data: stored bits become as sent, kept bits stay as they were, but for those that are clearable and sent as 1, ones become 1; every other bit
// becomes 0. WRRR does so whatever its check, and only where the retention was unlocked.
#[derive(Clone, Copy)]
pub struct Rules {
    pub needs_check: bool,
    pub only_unlocked: bool,
    pub at: usize,
    pub stored: [u8; 6],
    pub kept: [u8; 6],
    pub clearable: [u8; 6],
    pub ones: [u8; 6],
}

const ALL: [u8; 6] = [0xff; 6];

const NONE: [u8; 6] = [0; 6];

// What most writes do: their check is needed, and every bit becomes as sent. Each names its own place.
const PLAIN: Rules = Rules {
    needs_check: true,
    only_unlocked: false,
    at: 0,
    stored: ALL,
    kept: NONE,
    clearable: NONE,
    ones: NONE,
};

// The same where a write clears bits, and stores none.
const CLEARING: Rules = Rules {
    stored: NONE,
    kept: ALL,
    ..PLAIN
};

// The bits of an LPCM threshold register that are there: three thresholds of 12 bits.
const THRESHOLDS: [u8; 6] = [0xff, 0xff, 0xff, 0xff, 0x0f, 0];

pub fn rules_of(what: Write) -> Rules
    ensures { result ≡ rules_of what }
{
    match what {
        Write::Wrcfga => Rules {
            at: CONFIGURATION_A,
            stored: [0x87, 0xff, 0xf8, 0xff, 0x03, 0x0f],
            kept: [0, 0, 0, 0, 0, 0x30],
            ..PLAIN
        },
        Write::Wrcfgb => Rules {
            at: CONFIGURATION_B,
            ..PLAIN
        },
        Write::Wrrr => Rules {
            needs_check: false,
            only_unlocked: true,
            at: RETENTION,
            ..PLAIN
        },
        Write::Clrflag => Rules {
            at: STATUS_C,
            clearable: [0xff, 0xff, 0, 0, 0xff, 0xdf],
            ..CLEARING
        },
        Write::Clovuv => Rules {
            at: STATUS_D,
            clearable: [0xff, 0xff, 0xff, 0xff, 0, 0],
            ..CLEARING
        },
        Write::Wrpwma => Rules { at: PWM_A, ..PLAIN },
        Write::Wrpwmb => Rules {
            at: PWM_B,
            stored: [0xff, 0xff, 0, 0, 0, 0],
            ones: [0, 0, 0xff, 0xff, 0xff, 0xff],
            ..PLAIN
        },
        Write::Wrcmcfg => Rules {
            at: LPCM_CONFIGURATION,
            ..PLAIN
        },
        Write::Wrcmcellt => Rules {
            at: LPCM_CELL_THRESHOLDS,
            stored: THRESHOLDS,
            ..PLAIN
        },
        Write::Wrcmgpiot => Rules {
            at: LPCM_GPIO_THRESHOLDS,
            stored: THRESHOLDS,
            ..PLAIN
        },
        Write::Clrcmflag => Rules {
            at: LPCM_FLAGS,
            clearable: [0xff, 0, 0, 0, 0, 0],
            ..CLEARING
        },
    }
}

// Is a write taken only with its data check right?
pub fn needs_check(what: Write) -> bool
    ensures { result ≡ (rules_of what).needs_check }
{
    rules_of(what).needs_check
}

// Does a write store six as they are sent?
pub fn stores_whole(what: Write) -> bool
    ensures { result ≡ stores_whole what }
{
    matches!(
        what,
        Write::Wrcfgb | Write::Wrrr | Write::Wrpwma | Write::Wrcmcfg
    )
}
