//! The codes of markers: the byte after FF (T.81, B.1.1.2, B.1.1.3, Table B.1).

/// SOF0, the frame header of a baseline file.
pub const SOF0: u8 = 0xc0;

/// SOF1, the frame header of an extended sequential file.
pub const SOF1: u8 = 0xc1;

/// SOF2, the frame header of a progressive file.
pub const SOF2: u8 = 0xc2;

/// DHT: Huffman tables are defined.
pub const DHT: u8 = 0xc4;

/// RST0, the first of the eight restart markers.
pub const RST0: u8 = 0xd0;

/// SOI, the start of the image.
pub const SOI: u8 = 0xd8;

/// EOI, the end of the image.
pub const EOI: u8 = 0xd9;

/// SOS, a scan header.
pub const SOS: u8 = 0xda;

/// DQT: quantisation tables are defined.
pub const DQT: u8 = 0xdb;

/// DRI: the restart interval is defined.
pub const DRI: u8 = 0xdd;

/// APP0, of JFIF headers.
pub const APP0: u8 = 0xe0;

/// APP14, of Adobe segments.
pub const APP14: u8 = 0xee;

/// APP15, the last of the application segments.
pub const APP15: u8 = 0xef;

/// COM, a comment.
pub const COM: u8 = 0xfe;
