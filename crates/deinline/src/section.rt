// The numbers of the sections (the standard, 5.5.2).
pub const TYPE: u8 = 1;

pub const IMPORT: u8 = 2;

pub const FUNC: u8 = 3;

pub const TABLE: u8 = 4;

pub const MEM: u8 = 5;

pub const GLOBAL: u8 = 6;

pub const EXPORT: u8 = 7;

pub const START: u8 = 8;

pub const ELEM: u8 = 9;

pub const CODE: u8 = 10;

pub const DATA: u8 = 11;

pub const DATA_COUNT: u8 = 12;
