// What a layout's row of text says of a word is in specs/, with its laws in proofs/. The code here only names the bits of a word, each by
// the number that has it alone: `w / BIT_22 % 4` reads bits 23 and 22 of w, and `x * BIT_22` puts x there.
#![tactic(auto)]

pub const BIT_0: u32 = 1;

pub const BIT_1: u32 = 2;

pub const BIT_2: u32 = 4;

pub const BIT_3: u32 = 8;

pub const BIT_4: u32 = 16;

pub const BIT_5: u32 = 32;

pub const BIT_6: u32 = 64;

pub const BIT_7: u32 = 128;

pub const BIT_10: u32 = 1024;

pub const BIT_11: u32 = 2048;

pub const BIT_12: u32 = 4096;

pub const BIT_13: u32 = 8192;

pub const BIT_14: u32 = 16384;

pub const BIT_15: u32 = 32768;

pub const BIT_16: u32 = 65536;

pub const BIT_17: u32 = 131072;

pub const BIT_18: u32 = 262144;

pub const BIT_19: u32 = 524288;

pub const BIT_20: u32 = 1048576;

pub const BIT_21: u32 = 2097152;

pub const BIT_22: u32 = 4194304;

pub const BIT_23: u32 = 8388608;

pub const BIT_24: u32 = 16777216;

pub const BIT_29: u32 = 536870912;

pub const BIT_30: u32 = 1073741824;

pub const BIT_31: u32 = 2147483648;
