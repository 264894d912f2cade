//! The images of a generated job, as the bytes that assembling their sources gives.

ghost use Rattle.std.specs.Prelude.{◌≡◌, ◌++◌, IfOk, OnOk};
ghost use Rattle.tz_run.specs.Generated.{half_bytes, secure_code, segment_of, secure_image, nonsecure_image};

use std::alloc::{AllocError, Global};
use tz_model::{Image, Segment};

/// EORS R2, R2, R0.
pub const EORS: u16 = 0x4042;

/// ORRS R2, R2, R0.
pub const ORRS: u16 = 0x4302;

/// MSP_S and where Secure code begins.
static SECURE_VECTORS: [u8; 8] = [0x00, 0x10, 0x00, 0x30, 0x41, 0x00, 0x00, 0x10];

/// Secure code up to the operation of its function.
static SECURE_FRONT: [u8; 28] = [
    0x09, 0x48, 0x80, 0xF3, 0x88, 0x88, 0x09, 0x48, 0x01, 0x21, 0x01, 0x60, 0x08, 0x48, 0x09, 0x49,
    0x08, 0x60, 0x00, 0x21, 0x08, 0x48, 0x04, 0x47, 0x06, 0x49, 0x0A, 0x68,
];

/// Secure code behind that operation, up to the key.
static SECURE_MIDDLE: [u8; 18] = [
    0x0A, 0x60, 0x00, 0x20, 0x00, 0x21, 0x00, 0x22, 0x74, 0x47, 0x00, 0x10, 0x00, 0x20, 0x80, 0xE3,
    0x00, 0xE0,
];

/// The upper half of the key, and what stands behind it.
static SECURE_BACK: [u8; 10] = [0x00, 0x00, 0x00, 0x00, 0x00, 0x30, 0x80, 0x00, 0x20, 0x00];

/// SG and a branch to the function.
static SECURE_GATEWAY: [u8; 8] = [0x7F, 0xE9, 0x7F, 0xE9, 0xF8, 0xF7, 0x28, 0xB8];

/// MSP_NS and where Non-secure code begins.
static NONSECURE_VECTORS: [u8; 8] = [0x00, 0x10, 0x00, 0x20, 0x81, 0x00, 0x20, 0x00];

/// The vector of interrupt 0.
static NONSECURE_TICK: [u8; 4] = [0x8F, 0x00, 0x20, 0x00];

/// Non-secure code.
static NONSECURE_CODE: [u8; 28] = [
    0x04, 0x48, 0x01, 0x21, 0x01, 0x60, 0x04, 0x4B, 0x98, 0x47, 0x64, 0x1C, 0xFB, 0xE7, 0x6D, 0x1C,
    0x70, 0x47, 0x00, 0x00, 0x00, 0xE1, 0x00, 0xE0, 0x01, 0x80, 0x00, 0x10,
];

/// Appends a halfword, low byte first.
fn push_half(bytes: &mut Vec<u8>, half: u16) -> Result<(), AllocError>
    ensures { OnOk result (bytes.new.items ≡ bytes.old.items ++ half_bytes half) }
{
    bytes.push((half % 256) as u8)?;
    bytes.push((half / 256) as u8)?;
    Ok(())
}

/// Secure code with an operation and a key.
fn secure_code(alloc: Global, operation: u16, key: u16) -> Result<Vec<u8>, AllocError>
    ensures { IfOk result (λ v. v.items ≡ secure_code operation key) }
{
    let mut bytes = Vec::new(alloc);
    bytes.extend_from_slice(&SECURE_FRONT)?;
    push_half(&mut bytes, operation)?;
    bytes.extend_from_slice(&SECURE_MIDDLE)?;
    push_half(&mut bytes, key)?;
    bytes.extend_from_slice(&SECURE_BACK)?;
    Ok(bytes)
}

/// These bytes from an address on.
fn segment_of(alloc: Global, base: u32, bytes: &[u8]) -> Result<Segment, AllocError>
    ensures { IfOk result (λ s. s ≡ segment_of base bytes.now) }
{
    let mut copy = Vec::new(alloc);
    copy.extend_from_slice(bytes)?;
    Ok(Segment { base, bytes: copy })
}

/// A Secure image whose function does an operation with a key that it keeps.
#[tactic(auto, unfolding(crate::specs::Generated::secure_image))]
pub fn secure_image(alloc: Global, operation: u16, key: u16) -> Result<Image, AllocError>
    ensures { IfOk result (λ i. i ≡ secure_image operation key) }
{
    let vectors = segment_of(alloc, 0x1000_0000, &SECURE_VECTORS)?;
    let code = Segment {
        base: 0x1000_0040,
        bytes: secure_code(alloc, operation, key)?,
    };
    let gateway = segment_of(alloc, 0x1000_8000, &SECURE_GATEWAY)?;
    let segments = vec![in alloc; vectors, code, gateway]?;
    Ok(Image { segments })
}

/// The Non-secure image.
#[tactic(auto, unfolding(crate::specs::Generated::nonsecure_image))]
pub fn nonsecure_image(alloc: Global) -> Result<Image, AllocError>
    ensures { IfOk result (λ i. i ≡ nonsecure_image) }
{
    let vectors = segment_of(alloc, 0x0020_0000, &NONSECURE_VECTORS)?;
    let tick = segment_of(alloc, 0x0020_0040, &NONSECURE_TICK)?;
    let code = segment_of(alloc, 0x0020_0080, &NONSECURE_CODE)?;
    let segments = vec![in alloc; vectors, tick, code]?;
    Ok(Image { segments })
}
