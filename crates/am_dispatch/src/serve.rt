//! Reading lines and writing answers, until the input ends.
//!
//! Contracts say of each line how it is answered, as `Serves` of am_session has it, that it is answered before more is read, and
//! what is written where a read or a write fails.
ghost use Rattle.std.specs.Prelude.{◌≡◌, ◌≤◌, [], List, ℕ, IfErr, OnErr, OnOk, vec_len};
ghost use Rattle.am_json.specs.declared.transfer.TheConstants.{MAX_INPUT};
ghost use Rattle.am_protocol.specs.Lines.{IsRead};
ghost use Rattle.am_session.specs.Line.{AnswersLine};
ghost use Rattle.am_dispatch.specs.Serve.{BreaksOff, IsPrompt, Sends, ServesAll, Serving, Stops, WriteFails};
ghost use Rattle.am_dispatch.specs.Trail.{Since};
ghost use Rattle.am_dispatch.specs.declared.event.Event.{Event};

use crate::fault::ServeFault;
use crate::peer::Peer;
use am_json::transfer::MAX_INPUT;
use am_protocol::lines::Line;
use am_seed::Seed;
use am_session::line::is_echoed;
use am_session::service::Service;
use std::alloc::Global;

/// How many bytes are asked for at once.
const CHUNK: usize = 8_192;

/// Answers each line of the peer with a line to it, before it reads more, until the input ends.
/// The hashes of its boards start from this seed.
///
/// # Errors
///
/// `Unreadable`: a read failed. `Unwritable`: a write failed. Each lack of memory is answered by a line.
pub fn serve<P: Peer>(alloc: Global, seed: Seed, peer: &mut P) -> Result<(), ServeFault>
    ensures prompt { Since (P.trail peer.old) (P.trail peer.new) IsPrompt }
    ensures served { OnOk result (Since (P.trail peer.old) (P.trail peer.new) ServesAll) }
    ensures stopped { IfErr result (λ fault. Since (P.trail peer.old) (P.trail peer.new) (Stops fault)) }
{
    let mut service = Service::new(seed);
    let mut line = Line::new(alloc);
    let mut chunk = [0; CHUNK];
    for _ in 0..u64::MAX {
        let Ok(count) = peer.read(&mut chunk) else {
            return Err(ServeFault::Unreadable);
        };
        if count > 0 {
            answer_lines(alloc, &mut service, &mut line, &chunk[..count], peer)?;
        } else if line.read.is_end() {
            return Ok(());
        } else {
            return answer(alloc, &mut service, &line, peer);
        }
    }
    Err(ServeFault::Unreadable)
}

/// Answers each line that ends in these bytes. What is behind the last line feed begins the next line.
fn answer_lines<P: Peer>(
    alloc: Global,
    service: &mut Service,
    line: &mut Line,
    bytes: &[u8],
    peer: &mut P,
) -> Result<(), ServeFault>
    requires { vec_len line.old.text ≤ MAX_INPUT }
    ensures serving { OnOk result ((first : List Event) (reads : ℕ)
        → Serving first (P.trail peer.old) reads service.old.session line.old bytes.now
        → Serving first (P.trail peer.new) reads service.new.session line.new []) }
    ensures stopped { IfErr result (λ fault. (first : List Event) (reads : ℕ)
        → Serving first (P.trail peer.old) reads service.old.session line.old bytes.now
        → (fault ≡ ServeFault.Unwritable) × Since first (P.trail peer.new) IsPrompt × Since first (P.trail peer.new) WriteFails) }
    ensures short { vec_len line.new.text ≤ MAX_INPUT }
{
    let mut rest = bytes;
    while let Some(behind) = line.add(rest) {
        answer(alloc, service, line, peer)?;
        line.clear();
        rest = behind;
    }
    Ok(())
}

/// Answers a line.
fn answer<P: Peer>(
    alloc: Global,
    service: &mut Service,
    line: &Line,
    peer: &mut P,
) -> Result<(), ServeFault>
    ensures answered { OnOk result ((text : List ℕ) → IsRead line.now.read text line.now.text.items
        → Sends (λ answer. AnswersLine service.old.session text answer service.new.session) (P.trail peer.old) (P.trail peer.new)) }
    ensures broken { IfErr result (λ fault. (text : List ℕ) → IsRead line.now.read text line.now.text.items
        → (fault ≡ ServeFault.Unwritable)
        × BreaksOff (λ answer. AnswersLine service.old.session text answer service.new.session) (P.trail peer.old) (P.trail peer.new)) }
{
    let text = line.text.as_slice();
    if is_echoed(line.read, text) {
        write_all(peer, text)?;
        return write_all(peer, b"\n");
    }
    let answer = service.answer_read(alloc, line.read, text);
    write_all(peer, answer.bytes())
}

/// Writes all of these bytes. Where a write fails, the front of them may have been written.
fn write_all<P: Peer>(peer: &mut P, bytes: &[u8]) -> Result<(), ServeFault>
    ensures whole { OnOk result (Sends (λ text. text ≡ bytes.now) (P.trail peer.old) (P.trail peer.new)) }
    ensures part { OnErr result (BreaksOff (λ text. text ≡ bytes.now) (P.trail peer.old) (P.trail peer.new)) }
    ensures fault { IfErr result (λ fault. fault ≡ ServeFault.Unwritable) }
{
    let mut rest = bytes;
    while !rest.is_empty() {
        let Ok(count) = peer.write(rest) else {
            return Err(ServeFault::Unwritable);
        };
        if count == 0 {
            return Err(ServeFault::Unwritable);
        }
        rest = &rest[count..];
    }
    Ok(())
}
