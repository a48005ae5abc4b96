//! What follows of the definitions, and of what a tunnel stands for. Each is a function with nothing to do: its contract is
//! the law.
ghost use Rattle.std.specs.Prelude.{◌≡◌, ℕ, Bool, true, false, List, ◌++◌};
ghost use Rattle.px_event.specs.Laws.{Settles, SoFarGrows};
ghost use Rattle.px_event.specs.Layer.{Move};
ghost use Rattle.px_event.specs.Stands.{AwaitsWhatItAsks, EndsWhereItEnds, stop_of};
ghost use Rattle.px_event.specs.View.{View, seen_of};
ghost use Rattle.px_event.specs.declared.command.Command.{Command as GivenCommand};
ghost use Rattle.px_event.specs.declared.event.Rests.{Rests as LeftBytes};
ghost use Rattle.px_tunnel.specs.declared.tunnel.RawTunnel.{RawTunnel as Tunnel};
ghost use Rattle.px_tunnel.specs.Tunnel.{going, has_begun, tunnel_chain};
ghost use Rattle.px_tunnel.specs.Stands.{IsAt, TunnelStands, awaits_nothing, chain_of, has_ended, kept_in};
ghost use Rattle.px_tunnel.specs.Reaching.{at_close};
ghost use Rattle.px_tunnel.specs.Upstream.{granted, granting, refused};

/// At one prefix passing settles at once, so the walk over more events is the walk resumed.
pub fn passing_settles()
    ensures { (server : ℕ) (rests : LeftBytes) → Settles (tunnel_chain server rests) }
{}

/// In each view what is owed while no side has closed only grows.
pub fn waiting_grows()
    ensures { (server : ℕ) (rests : LeftBytes) (view : View) → SoFarGrows (tunnel_chain server rests) (seen_of view) }
{}

/// It asks nothing, and awaits nothing.
pub fn nothing_is_asked()
    ensures { (server : ℕ) (rests : LeftBytes) → AwaitsWhatItAsks (tunnel_chain server rests) (IsAt server rests) awaits_nothing }
{}

/// It has ended exactly where its chain ends.
pub fn ends_with_its_chain()
    ensures { (server : ℕ) (rests : LeftBytes) → EndsWhereItEnds (tunnel_chain server rests) (IsAt server rests) has_ended }
{}

/// A tunnel that has begun keeps no bytes.
pub fn keeps_nothing_once_begun()
    ensures { (made state : Tunnel) (moves : List Move) (given : List GivenCommand) → TunnelStands made state moves given →
        has_begun (stop_of (chain_of made) going moves).prefix ≡ true → kept_in state ≡ 0 }
{}

/// A close of a proxy that was asked for a tunnel decides only what is awaited: that is refused.
pub fn a_close_decides_what_is_awaited()
    ensures { (text : List ℕ) → granting text true ≡ at_close (granting text false) }
{}

/// A tunnel that is granted stays granted, with as many bytes of the proxy's head, whatever follows and whether the proxy closes.
pub fn granted_stays_granted()
    ensures { (text more : List ℕ) (closed later : Bool) (used : ℕ) → granting text closed ≡ granted used → granting (text ++ more) later ≡ granted used }
{}

/// A tunnel that is refused before a close stays refused, whatever follows and whether the proxy closes.
pub fn refused_stays_refused()
    ensures { (text more : List ℕ) (closed : Bool) → granting text false ≡ refused → granting (text ++ more) closed ≡ refused }
{}
