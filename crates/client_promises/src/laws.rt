//! What holds of clients in every run of what stands before the machine, in a reader's words.

ghost use Rattle.client_promises.specs.Notices.{NoticesHaveCausesLaw};
ghost use Rattle.client_promises.specs.Registering.{ClientsAreRegisteredLaw, ClientCausesAreExactLaw, RegistrationsAreTheClientsLaw};

/// Where an event of a client is refused, the printed cause is the first that holds, in the order of the causes, and nothing
/// changes; where it is accepted, none of them holds.
pub fn client_causes_are_exact()
    ensures { ClientCausesAreExactLaw }
{}

/// An accepted `watch` registers the client on this very device, behind those on devices of no greater serial; an accepted
/// `unwatch` takes that registration away; and nothing else changes.
pub fn clients_are_registered()
    ensures { ClientsAreRegisteredLaw }
{}

/// A registration comes and goes by the events of clients alone, and goes with the notice that its device was removed or is gone.
pub fn registrations_are_the_clients()
    ensures { RegistrationsAreTheClientsLaw }
{}

/// A notice has a cause. A client is asked only about a disable or an eject that is due, when those before it on its set were asked
/// directly before and each agreed, and nobody before them: so once. It hears that its device stays directly after a refusal, or an
/// end with a veto, or another that heard so; and that its device is gone directly after another end, or another that heard so.
pub fn notices_have_causes()
    ensures { NoticesHaveCausesLaw }
{}
