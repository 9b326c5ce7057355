//! The laws over every list of calls, as contracts: a caller that needs a law calls the function that bears it.
ghost use Rattle.protocol.specs.Accepted.{AcceptedDo};
ghost use Rattle.protocol.specs.Alike.{RepliesTellContents};
ghost use Rattle.protocol.specs.Faults.{NumbersCarried};
ghost use Rattle.protocol.specs.Invariant.{SessionsFit};
ghost use Rattle.protocol.specs.Keeping.{HandlesKeepBytes};
ghost use Rattle.protocol.specs.Listing.{ListingsRight, ListingsWalked};
ghost use Rattle.protocol.specs.ReadBack.{InfosReadBack};
ghost use Rattle.protocol.specs.Refusals.{RefusalsLeave, SameTransaction, InfosAnswered};
ghost use Rattle.protocol.specs.Responses.{ResponsesTellReplies};
ghost use Rattle.protocol.specs.Staying.{StoresKept, OneAtATime};

/// Every list of calls keeps both stores sound, and the second store, the lock, the capacity and the limit as they were; each call
/// changes at most one number; and the session fits its stores.
#[tactic(auto, using(crate::proofs::Staying::stores_kept, crate::proofs::Staying::one_at_a_time, crate::proofs::Staying::sessions_fit))]
pub fn calls_keep_stores_sound()
    ensures kept { StoresKept }
    ensures single { OneAtATime }
    ensures session { SessionsFit }
{}

/// In each session a handle gets bytes at most once, reads send just these bytes or their part, and a handle that is given is new.
pub fn handles_keep_their_bytes()
    ensures { HandlesKeepBytes }
{}

/// Two sound pairs of storages are equal exactly when new responders over them reply alike to every list of calls.
#[tactic(auto, using(crate::proofs::Alike::replies_tell_contents))]
pub fn replies_tell_contents()
    ensures { RepliesTellContents }
{}

/// In every list of calls, what an accepted GetObjectInfo sends is read back as the record of that file.
#[tactic(auto, using(crate::proofs::ReadBack::infos_read_back))]
pub fn infos_read_back()
    ensures { InfosReadBack }
{}

/// A refusal sends nothing and changes no store, and of the session only what is said; a cancel changes no store and never opens,
/// closes or announces; the expected transaction moves with each command that has it; SendObjectInfo answers its own numbers only;
/// a fault is carried up with its number unaltered.
#[tactic(auto, using(crate::proofs::Refusals::refusals_leave, crate::proofs::Refusals::same_transaction, crate::proofs::Refusals::infos_answered, crate::proofs::Ways::numbers_carried))]
pub fn refusals_leave_the_rest()
    ensures left { RefusalsLeave }
    ensures transaction { SameTransaction }
    ensures numbers { InfosAnswered }
    ensures carried { NumbersCarried }
{}

/// In every list of calls, an accepted GetObjectHandles sends just the handles that it is asked for, ascending; a walk by the
/// next-file question gives the same handles.
#[tactic(auto, using(crate::proofs::Listing::listings_right, crate::proofs::Walking::listings_walked))]
pub fn listings_are_right()
    ensures right { ListingsRight }
    ensures walked { ListingsWalked }
{}

/// Responses as bytes determine the reply, and every reply to calls that a host can make fits its response.
#[tactic(auto, using(crate::proofs::Responses::responses_tell_replies))]
pub fn responses_tell_replies()
    ensures { ResponsesTellReplies }
{}

/// In every list of calls, an accepted command does to the first store and to the session what its operation says, and no more.
#[tactic(auto, using(crate::proofs::Accepted::accepted_do))]
pub fn accepted_commands_do_what_they_say()
    ensures { AcceptedDo }
{}
