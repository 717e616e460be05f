// One monitor's record, and the list of commands.
#![tactic(auto)]

mod commands;
mod record;

pub use commands::{
    Bare, Command, MOST_MONITORS, PAYLOAD_SIZE, SEAL_SIZE, Write, command_of, data_size,
    frame_length, is_listed, reply_size, width_of,
};
pub use record::{
    CELL_COUNT, CELLS, CELLS_PART, CELLS_SIZE, CMF1, CONFIGURATION_A, CONFIGURATION_B, COUNTER,
    DCC_BITS, FLAG_BYTES, LAST_CELLS, LAST_CELLS_PART, LPCM_CELL_THRESHOLDS, LPCM_CONFIGURATION,
    LPCM_FLAGS, LPCM_GPIO_THRESHOLDS, MOST_COUNT, PWM_A, PWM_B, Part, RDCFGB, RDCMCELLT, RDCMCFG,
    RDSTATC, RECORD_SIZE, RETENTION, SNAPSHOT, SNAPSHOT_SIZE, STATUS_BITS, STATUS_C, STATUS_D,
    UNLOCKED, byte_at, byte_in, in_lpcm, is_snapped, record_sound,
};
