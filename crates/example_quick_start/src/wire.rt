//! What surrounds frame bodies on a connection: protocol headers, and the size of each frame.

ghost use Rattle.std.specs.Prelude.{◌≡◌, ◌+◌, ◌++◌, length, OnOk};
ghost use Rattle.std.specs.Int.{w32, to_be_bytes};

use anyhow::{Result, bail, ensure};
use bytes::{BufMut, BytesMut};
use fe2o3_sasl_wire::{FrameView, ProtocolHeader, ProtocolHeaderCodec, SymbolsView, view_frame};
use std::alloc::Global;

/// Sends the header of SASL, as each side does first.
pub fn open(output: &mut BytesMut) -> Result<()> {
    ProtocolHeaderCodec::new().encode(ProtocolHeader::sasl(), output)?;
    Ok(())
}

/// Whether the other side's header has come. A header that is not that of SASL is refused.
pub fn is_open(input: &mut BytesMut) -> Result<bool> {
    let Some(header) = ProtocolHeaderCodec::new().decode(input)? else {
        return Ok(false);
    };
    ensure!(header == ProtocolHeader::sasl(), "another protocol");
    Ok(true)
}

/// Sends a body as a frame: four bytes of size, which count themselves, and then the body. A SASL
/// frame has at most 512 bytes.
pub fn send(output: &mut BytesMut, body: &[u8]) -> Result<()>
    ensures { OnOk result (output.new.items
        ≡ output.old.items ++ to_be_bytes w32 (length body.now + 4) ++ body.now) }
{
    ensure!(body.len() <= 508, "too long for a SASL frame");
    output.put_u32(body.len() as u32 + 4)?;
    output.put_slice(body)?;
    Ok(())
}

/// Takes the body of the next frame from what has come, or `None` while the frame is not whole. A
/// size above 512 or below 8 is refused before anything is read.
pub fn receive(alloc: Global, input: &mut BytesMut) -> Result<Option<Vec<u8>>> {
    let Some((size, _)) = input.as_slice().split_first_chunk::<4>() else {
        return Ok(None);
    };
    let size = u32::from_be_bytes(*size) as usize;
    ensure!((8..=512).contains(&size), "a frame of {size} bytes");
    let Some(body) = input.as_slice().get(4..size) else {
        return Ok(None);
    };
    let body = body.to_vec(alloc)?;
    input.advance(size);
    Ok(Some(body))
}

/// Returns the names that a server's first body offers, as a view of the body.
pub fn offered(body: &[u8]) -> Result<SymbolsView<'_>> {
    match view_frame(body)? {
        (FrameView::Mechanisms(names), _) => Ok(names),
        _ => bail!("no mechanisms"),
    }
}
