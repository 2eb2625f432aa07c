//! The made-up world: who has which key.

use crate::failed::Failed;
use sample_world::{Role, World};
use std::alloc::Global;
use xa_io::Octs;

// The first second of 2030, and the last of 2039.
pub const FROM: i64 = 1_893_456_000;

pub const TO: i64 = 2_208_988_799;

// The keys of the certificate authority and of the signer; those of the authorities that stamp come behind them.
pub const AUTHORITY: u32 = 0;

pub const SIGNER: u32 = 1;

/// What the certificate authority signs, in this order, so that each has a one-time key of its own.
#[derive(Drop)]
pub struct Issued {
    pub anchor: Octs,
    pub signer: Octs,
    pub lists: Octs,
}

/// The world, and what its certificate authority has signed first.
pub fn world(alloc: Global) -> Result<(World, Issued), Failed> {
    let mut world = World::new(alloc, 30);
    let anchor = world.certificate(AUTHORITY, AUTHORITY, FROM, TO, Role::Authority)?;
    let signer = world.certificate(AUTHORITY, SIGNER, FROM, TO, Role::Signer)?;
    let lists = world.crl(AUTHORITY, FROM, TO, None)?;
    Ok((
        world,
        Issued {
            anchor,
            signer,
            lists,
        },
    ))
}

/// The certificate of an authority that stamps, whose key is one of four. Those before it are made too, since each takes a one-time key.
pub fn stamper(world: &mut World, key: u32) -> Result<Octs, Failed> {
    let mut certificate = Err(Failed);
    for other in 2..6 {
        let made = world.certificate(AUTHORITY, other, FROM, TO, Role::Stamper)?;
        if other == key {
            certificate = Ok(made);
        }
    }
    certificate
}
