//! Writes a response as lines, one line for each part.

ghost use Rattle.std.specs.Prelude.{◌≡◌, ◌++◌, OnOk, codes};
ghost use Rattle.std.specs.Fmt.{signed_decimal};
ghost use Rattle.std.specs.FinMap.{entries};
ghost use Rattle.csi_client.specs.Escape.{escaped};
ghost use Rattle.csi_client.specs.Lines.{each, number_or_none, capability_line, ready_word, volume_words, volume_line, context_line, confirmed_line, further, nodes_word, entry_of, entry_line, token_line, lines};

use crate::escape::put_escaped;
use csi_types::{Confirmed, Entry, Items, Map, Response, Text, VolumeInfo};
use itoa::Buffer;
use std::alloc::AllocError;

fn put_number(out: &mut Vec<u8>, number: i64) -> Result<(), AllocError>
    ensures { OnOk result (out.new.items ≡ out.old.items ++ signed_decimal number) }
{
    let mut buffer = Buffer::new();
    out.extend_from_slice(buffer.format(number).as_bytes())
}

fn put_number_or_none(out: &mut Vec<u8>, number: Option<i64>) -> Result<(), AllocError>
    ensures { OnOk result (out.new.items ≡ out.old.items ++ number_or_none number) }
{
    match number {
        Some(number) => put_number(out, number),
        None => out.extend_from_slice(b"-"),
    }
}

fn widened(number: Option<i32>) -> Option<i64>
    ensures { result ≡ number }
{
    match number {
        Some(number) => Some(i64::from(number)),
        None => None,
    }
}

fn put_capability(out: &mut Vec<u8>, number: Option<i32>) -> Result<(), AllocError>
    ensures { OnOk result (out.new.items ≡ out.old.items ++ capability_line number) }
{
    out.extend_from_slice(b"capability ")?;
    put_number_or_none(out, widened(number))?;
    out.extend_from_slice(b"\n")
}

fn put_capabilities(out: &mut Vec<u8>, types: &[Option<i32>]) -> Result<(), AllocError>
    ensures { OnOk result (out.new.items ≡ out.old.items ++ each capability_line types.now) }
{
    for number in types {
        put_capability(out, *number)?;
    }
    Ok(())
}

fn put_ready(out: &mut Vec<u8>, ready: Option<bool>) -> Result<(), AllocError>
    ensures { OnOk result (out.new.items ≡ out.old.items ++ ready_word ready) }
{
    let word: &[u8] = match ready {
        Some(true) => b"true",
        Some(false) => b"false",
        None => b"-",
    };
    out.extend_from_slice(word)
}

fn put_volume_words(out: &mut Vec<u8>, volume: &VolumeInfo) -> Result<(), AllocError>
    ensures { OnOk result (out.new.items ≡ out.old.items ++ volume_words volume.now) }
{
    put_escaped(out, volume.id.as_bytes())?;
    out.extend_from_slice(b" ")?;
    put_number(out, volume.bytes)
}

fn put_volume(out: &mut Vec<u8>, volume: &Option<VolumeInfo>) -> Result<(), AllocError>
    ensures { OnOk result (out.new.items ≡ out.old.items ++ volume_line volume.now) }
{
    let Some(volume) = volume else {
        return out.extend_from_slice(b"volume -\n");
    };
    out.extend_from_slice(b"volume ")?;
    put_volume_words(out, volume)?;
    out.extend_from_slice(b"\n")
}

fn put_context_line(out: &mut Vec<u8>, key: &Text, value: &Text) -> Result<(), AllocError>
    ensures { OnOk result (out.new.items ≡ out.old.items ++ context_line (key.now, value.now)) }
{
    out.extend_from_slice(b"context ")?;
    put_escaped(out, key.as_bytes())?;
    out.extend_from_slice(b"=")?;
    put_escaped(out, value.as_bytes())?;
    out.extend_from_slice(b"\n")
}

fn put_context(out: &mut Vec<u8>, context: &Map) -> Result<(), AllocError>
    ensures { OnOk result (out.new.items ≡ out.old.items ++ each context_line (entries context.now)) }
{
    for (key, value) in context {
        put_context_line(out, key, value)?;
    }
    Ok(())
}

fn put_denied(out: &mut Vec<u8>, message: &Text) -> Result<(), AllocError>
    ensures { OnOk result
        (out.new.items ≡ out.old.items ++ codes "not confirmed " ++ escaped message.now ++ codes "\n") }
{
    out.extend_from_slice(b"not confirmed ")?;
    put_escaped(out, message.as_bytes())?;
    out.extend_from_slice(b"\n")
}

fn put_confirmed(
    out: &mut Vec<u8>,
    confirmed: &Option<Confirmed>,
    message: &Text,
) -> Result<(), AllocError>
    ensures { OnOk result (out.new.items ≡ out.old.items ++ confirmed_line confirmed.now message.now) }
{
    match confirmed {
        Some(_) => out.extend_from_slice(b"confirmed\n"),
        None => put_denied(out, message),
    }
}

fn put_further(out: &mut Vec<u8>, nodes: &[Text]) -> Result<(), AllocError>
    ensures { OnOk result (out.new.items ≡ out.old.items ++ further nodes.now) }
{
    for node in nodes {
        out.extend_from_slice(b",")?;
        put_escaped(out, node.as_bytes())?;
    }
    Ok(())
}

fn put_nodes(out: &mut Vec<u8>, nodes: &Option<Items<Text>>) -> Result<(), AllocError>
    ensures { OnOk result (out.new.items ≡ out.old.items ++ nodes_word nodes.now) }
{
    let Some(nodes) = nodes else {
        return out.extend_from_slice(b"-");
    };
    match nodes.as_slice().split_first() {
        Some((first, rest)) => {
            put_escaped(out, first.as_bytes())?;
            put_further(out, rest)
        }
        None => out.extend_from_slice(b"-"),
    }
}

fn put_entry(out: &mut Vec<u8>, entry: &Entry) -> Result<(), AllocError>
    ensures { OnOk result (out.new.items ≡ out.old.items ++ entry_line entry.now) }
{
    let Some(volume) = &entry.volume else {
        return out.extend_from_slice(b"volume -\n");
    };
    out.extend_from_slice(b"volume ")?;
    put_volume_words(out, volume)?;
    out.extend_from_slice(b" ")?;
    put_nodes(out, &entry.nodes)?;
    out.extend_from_slice(b"\n")
}

fn put_entries(out: &mut Vec<u8>, entries: &[Entry]) -> Result<(), AllocError>
    ensures { OnOk result (out.new.items ≡ out.old.items ++ each entry_line entries.now) }
{
    for entry in entries {
        put_entry(out, entry)?;
    }
    Ok(())
}

fn put_token(out: &mut Vec<u8>, token: &Text) -> Result<(), AllocError>
    ensures { OnOk result (out.new.items ≡ out.old.items ++ token_line token.now) }
{
    if token.is_empty() {
        return Ok(());
    }
    out.extend_from_slice(b"next ")?;
    put_escaped(out, token.as_bytes())?;
    out.extend_from_slice(b"\n")
}

fn put_plugin(out: &mut Vec<u8>, name: &Text, version: &Text) -> Result<(), AllocError>
    ensures { OnOk result (out.new.items
        ≡ out.old.items ++ codes "plugin " ++ escaped name.now ++ codes " " ++ escaped version.now ++ codes "\n") }
{
    out.extend_from_slice(b"plugin ")?;
    put_escaped(out, name.as_bytes())?;
    out.extend_from_slice(b" ")?;
    put_escaped(out, version.as_bytes())?;
    out.extend_from_slice(b"\n")
}

fn put_capacity(out: &mut Vec<u8>, available: i64, maximum: Option<i64>) -> Result<(), AllocError>
    ensures { OnOk result (out.new.items
        ≡ out.old.items ++ codes "available " ++ signed_decimal available
        ++ codes " maximum " ++ number_or_none maximum ++ codes "\n") }
{
    out.extend_from_slice(b"available ")?;
    put_number(out, available)?;
    out.extend_from_slice(b" maximum ")?;
    put_number_or_none(out, maximum)?;
    out.extend_from_slice(b"\n")
}

// Appends a response as lines, one line for each part of the response. A text is one word, a size is a number
// of bytes, and an absent part is `-`. But an empty token of a listing has no line. Appends nothing for the
// responses of DeleteVolume, ControllerUnpublishVolume and ControllerModifyVolume, which have no parts. If
// memory is refused, the vector may contain some of the lines.
pub(crate) fn put_lines(out: &mut Vec<u8>, response: &Response) -> Result<(), AllocError>
    ensures { OnOk result (out.new.items ≡ out.old.items ++ lines response.now) }
{
    match response {
        Response::PluginInfo { name, version } => put_plugin(out, name, version),
        Response::PluginCapabilities(types) | Response::ControllerCapabilities(types) => {
            put_capabilities(out, types.as_slice())
        }
        Response::Probe(ready) => {
            out.extend_from_slice(b"ready ")?;
            put_ready(out, *ready)?;
            out.extend_from_slice(b"\n")
        }
        Response::Create(volume) => put_volume(out, volume),
        Response::Delete | Response::Unpublish | Response::Modify => Ok(()),
        Response::Publish(context) => put_context(out, context),
        Response::Validate { confirmed, message } => put_confirmed(out, confirmed, message),
        Response::List { entries, token } => {
            put_entries(out, entries.as_slice())?;
            put_token(out, token)
        }
        Response::Capacity { available, maximum } => put_capacity(out, *available, *maximum),
    }
}
