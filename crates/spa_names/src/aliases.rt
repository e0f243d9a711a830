// Written by tables/generate.py from the headers of PipeWire 0.3.65. Do not edit.
//! Further names of numbers that have an entry.

use crate::entry::Naming;

#[rattlefmt::skip]
pub(crate) const ALIASES_OF_AUDIO_FORMAT: &[Naming] = &[
    ("F32", 283),
    ("F32OE", 284),
    ("F64", 285),
    ("F64OE", 286),
    ("S16", 259),
    ("S16OE", 260),
    ("S18", 279),
    ("S18OE", 280),
    ("S20", 275),
    ("S20OE", 276),
    ("S24", 271),
    ("S24OE", 272),
    ("S24_32", 263),
    ("S24_32OE", 264),
    ("S32", 267),
    ("S32OE", 268),
    ("U16", 261),
    ("U16OE", 262),
    ("U18", 281),
    ("U18OE", 282),
    ("U20", 277),
    ("U20OE", 278),
    ("U24", 273),
    ("U24OE", 274),
    ("U24_32", 265),
    ("U24_32OE", 266),
    ("U32", 269),
    ("U32OE", 270),
];
