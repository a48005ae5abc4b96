//! A proxy: each connection is a conversation whose requests go where the mode says, and recorded requests are sent again.
ghost use Rattle.std.specs.Prelude.{◌≡◌, ◌≢◌, ◌≤◌, ◌⊎◌, [], Some, Err, IfErr, IfOk, OnOk, OnErr, option_copied, option_map};
ghost use Rattle.rand_chacha.specs.ChaCha.{key_of};
ghost use Rattle.px_outside.specs.Count.{Rose};
ghost use Rattle.px_outside.specs.Net.{failed, idle};
ghost use Rattle.px_outside.specs.Sink.{Writes, WritesPart};
ghost use Rattle.px_stack.specs.Modes.{mode_due};
ghost use Rattle.px_resend.specs.Chain.{proxy_in};
ghost use Rattle.px_resend.specs.Due.{due_with, most_replayed};
ghost use Rattle.px_core.specs.Answers.{files_meaning};
ghost use Rattle.px_core.specs.Due.{Due};
ghost use Rattle.px_core.specs.Run.{IsDueOf};
ghost use Rattle.px_options.specs.View.{mode_view};
ghost use Rattle.px_app.specs.Lines.{start_note};
ghost use Rattle.px_words.specs.Outside.{IsTold};
ghost use Rattle.px_app.specs.Over.{KeepsLosses, LeavesBehind};
ghost use Rattle.px_app.specs.Dues.{run_due};
ghost use Rattle.px_app.specs.Run.{ListensAt, Told, place_of};
ghost use Rattle.px_app.specs.Saved.{saves_to_of};
ghost use Rattle.px_app.specs.Serves.{where_listening};
ghost use Rattle.px_app.specs.Serving.{Ran};
ghost use Rattle.px_app.specs.Statuses.{code_of};

use crate::noting::start_note;
use crate::printing::Printing;
use crate::saving::Saving;
use crate::serving::{Serving, serve_all};
use crate::status::Status;
use px_core::{Answerer, Gates};
use px_gate::Gate;
use px_message::{Address, Flow};
use px_outside::{Files, Net, Sink};
use px_resend::{Conversation, Replays, proxy_of};
use px_stack::{Mode, Placed, Stack};
use px_text::NoMemory;
use px_words::tell;
use std::alloc::Global;

/// A conversation, behind a gate that holds what comes while a question is open: one with a client, of HTTP and what follows it, or a recorded request that is
/// sent again.
pub type Conv = Gate<Conversation<Stack>>;

/// How serving ended, and how printing and saving went.
#[derive(Clone, Copy, Debug)]
pub(crate) struct Ending {
    pub(crate) status: Status,
    pub(crate) printing: Printing,
}

/// Listens for clients at `proxy`, and for operators at `control` where there is one, tells a note of that, and serves each connection in this mode and with this key for the masks of
/// frames, with hooks answered so, until the net ends or so many things were heard. The requests of the flows `resent` are sent again, one behind the other. Of each finished flow its
/// line is printed, and then it is saved where that is asked for.
pub(crate) fn serve<A: Answerer + Drop, N: Net, F: Files, S: Sink, T: Sink>(
    alloc: Global,
    proxy: &Address,
    control: Option<&Address>,
    mode: Mode,
    mask_key: [u8; 32],
    resent: Vec<Flow>,
    answerer: A,
    saving: Option<Saving>,
    net: &mut N,
    files: &mut F,
    out: &mut S,
    notes: &mut T,
    budget: u64,
) -> Ending
    requires idle { N.listening net.old ≡ idle }
    requires losses { KeepsLosses A.answers A.fails }
    ensures run { N.trace net.old ≡ Some [] → Told (Ran A.answers A.drops A.names A.fails (run_due mode (key_of mask_key) resent.items) (record { own = A.state answerer; files = files_meaning F.contents F.calls F.misses F.faults F.losses files.old }) (saves_to_of saving) budget result.status result.printing (files_meaning F.contents F.calls F.misses F.faults F.losses files.new) (most_replayed resent.items) (S.written out.old) (S.written out.new)) (N.trace net.new) }
    ensures failed { result.printing ≡ Printing.Failed → Rose (S.faults out.old) (S.faults out.new) ⊎ Rose (F.losses files.old) (F.losses files.new) }
    ensures later { S.faults out.old ≤ S.faults out.new }
    ensures files { LeavesBehind A.answers A.drops A.fails (saves_to_of saving) (record { own = A.state answerer; files = files_meaning F.contents F.calls F.misses F.faults F.losses files.old }) (files_meaning F.contents F.calls F.misses F.faults F.losses files.new) }
    ensures listening { (N.trace net.new ≡ N.trace net.old) ⊎ ListensAt (place_of proxy.now) (option_map place_of (option_copied control.entry)) (N.listening net.new) }
    ensures notes { IsTold (Rose (T.faults notes.old) (T.faults notes.new)) (code_of result.status) (where_listening (N.listening net.new) (start_note (proxy.now.host, proxy.now.port) (mode_view mode))) (T.written notes.old) (T.written notes.new) }
    ensures fault { result.status ≡ Status.NetFault → Rose (N.faults net.old) (N.faults net.new) }
    ensures output { result.status ≢ Status.OutputFailed }
{
    let printing = Printing::Whole;
    if let Err(status) = begin(alloc, proxy, control, &mode, net, notes) {
        drop(mode);
        drop(resent);
        drop(answerer);
        drop(saving);
        return Ending { status, printing };
    }
    match maker_of(alloc, mode, mask_key, resent) {
        Ok(maker) => serve_by(alloc, maker, answerer, saving, net, files, out, budget),
        Err(NoMemory) => {
            drop(answerer);
            drop(saving);
            Ending {
                status: Status::NoMemory,
                printing,
            }
        }
    }
}

/// Who makes the conversations of a run: those with clients, and those of the requests that are sent again.
pub(crate) fn maker_of(
    alloc: Global,
    mode: Mode,
    mask_key: [u8; 32],
    resent: Vec<Flow>,
) -> Result<Gates<Replays<Placed>>, NoMemory>
    ensures mode { IfOk result (λ maker. maker.layers.layers.mode ≡ mode) }
    ensures mask_key { IfOk result (λ maker. maker.layers.layers.mask_key ≡ mask_key) }
    ensures proxy { IfOk result (λ maker. maker.layers.proxy ≡ proxy_in mode) }
    ensures resent { IfOk result (λ maker. maker.layers.flows ≡ resent) }
{
    let proxy = proxy_of(&mode)?;
    let placed = Placed::new(alloc, mode, mask_key);
    Ok(Gates::new(alloc, Replays::new(alloc, placed, proxy, resent)))
}

/// Serves with this maker of conversations, where it listens.
pub(crate) fn serve_by<A: Answerer + Drop, N: Net, F: Files, S: Sink>(
    alloc: Global,
    maker: Gates<Replays<Placed>>,
    answerer: A,
    saving: Option<Saving>,
    net: &mut N,
    files: &mut F,
    out: &mut S,
    budget: u64,
) -> Ending
    requires losses { KeepsLosses A.answers A.fails }
    ensures run { (due : Due) → IsDueOf (due_with (mode_due maker.layers.layers.mode (key_of maker.layers.layers.mask_key)) maker.layers.proxy maker.layers.flows.items) due → N.trace net.old ≡ Some [] →
        Told (Ran A.answers A.drops A.names A.fails due (record { own = A.state answerer; files = files_meaning F.contents F.calls F.misses F.faults F.losses files.old }) (saves_to_of saving) budget result.status result.printing (files_meaning F.contents F.calls F.misses F.faults F.losses files.new) (most_replayed maker.layers.flows.items) (S.written out.old) (S.written out.new)) (N.trace net.new) }
    ensures failed { result.printing ≡ Printing.Failed → Rose (S.faults out.old) (S.faults out.new) ⊎ Rose (F.losses files.old) (F.losses files.new) }
    ensures later { S.faults out.old ≤ S.faults out.new }
    ensures files { LeavesBehind A.answers A.drops A.fails (saves_to_of saving) (record { own = A.state answerer; files = files_meaning F.contents F.calls F.misses F.faults F.losses files.old }) (files_meaning F.contents F.calls F.misses F.faults F.losses files.new) }
    ensures listening { N.listening net.new ≡ N.listening net.old }
    ensures fault { result.status ≡ Status.NetFault → Rose (N.faults net.old) (N.faults net.new) }
    ensures output { result.status ≢ Status.OutputFailed }
{
    let mut serving = Serving::<Conv, A, Gates<Replays<Placed>>>::new(
        alloc, answerer, maker, saving,
    );
    let status = serve_all(alloc, &mut serving, net, files, out, budget);
    let printing = serving.printing;
    Ending { status, printing }
}

// Listens, and tells a note of that. Nothing is heard.
fn begin<N: Net, T: Sink>(
    alloc: Global,
    proxy: &Address,
    control: Option<&Address>,
    mode: &Mode,
    net: &mut N,
    notes: &mut T,
) -> Result<(), Status>
    requires idle { N.listening net.old ≡ idle }
    ensures trace { N.trace net.new ≡ N.trace net.old }
    ensures listening { OnOk result (ListensAt (place_of proxy.now) (option_map place_of (option_copied control.entry)) (N.listening net.new)) }
    ensures told { OnOk result (Writes (start_note (proxy.now.host, proxy.now.port) (mode_view mode.now)) (T.written notes.old) (T.written notes.new)
        ⊎ (Rose (T.faults notes.old) (T.faults notes.new) × WritesPart (start_note (proxy.now.host, proxy.now.port) (mode_view mode.now)) (T.written notes.old) (T.written notes.new))) }
    ensures err { IfErr result (λ status. (status ≡ Status.NetFault) ⊎ (status ≡ Status.NoMemory)) }
    ensures untold { OnErr result (T.written notes.new ≡ T.written notes.old) }
    ensures deaf { result ≡ Err Status.NetFault → N.listening net.new ≡ failed }
    ensures fault { result ≡ Err Status.NetFault → Rose (N.faults net.old) (N.faults net.new) }
    ensures later { N.faults net.old ≤ N.faults net.new }
{
    net.listen(proxy, control)?;
    let note = start_note(alloc, proxy, mode)?;
    tell(notes, &note)?;
    Ok(())
}
