//! Stream ciphers whose keystream is used as a source of random blocks.

pub mod chacha;
