ghost use Rattle.std.specs.Prelude.{◌≡◌, ◌≢◌, ◌+◌, ◌≤◌, ℕ, List, Some, IfErr, IsSome, length, true};
ghost use Rattle.ndn_tlv.specs.Element.{Field};
ghost use Rattle.pit_fib.specs.FaceSet.{adding, has_face};
ghost use Rattle.pit_fib.specs.Fib.{Routes, left_at, without_face};
ghost use Rattle.pit_fib.specs.StrategyTable.{Choices};
ghost use Rattle.mgmt_core.specs.Commands.{text_of};
ghost use Rattle.mgmt_core.specs.Reading.{PlainCommand, command_at};
ghost use Rattle.mgmt_core.specs.Tables.{AllAreUp, if_done, routes_after, status_of};
ghost use Rattle.mgmt_core.specs.Writing.{body_after, body_limit, reply_limit, response};

/// Law: commands keep the property that each face that has a next hop or a route is up, whatever
/// the status and the time of the command.
pub fn commands_leave_faces_up()
    ensures { (c : PlainCommand) (face now : ℕ) (up : List ℕ) (routes : Routes)
        (choices : Choices) → AllAreUp routes up
        → AllAreUp (if_done (status_of c face up routes choices)
        (routes_after c face now routes) routes) up }
{}

/// Law: the closing of a face keeps the property that each face that has a next hop or a route is
/// up.
pub fn closings_leave_faces_up()
    ensures { (up rest : List ℕ) (face : ℕ) (routes : Routes)
        → ((f : ℕ) → has_face f up ≡ true → f ≢ face → has_face f rest ≡ true)
        → AllAreUp routes up → AllAreUp (without_face routes face) rest }
{}

/// Law: the opening of a face keeps the property that each face that has a next hop or a route is
/// up, even if the opening is refused.
pub fn openings_leave_faces_up()
    ensures { (face : ℕ) (up : List ℕ) (routes : Routes)
        → AllAreUp routes up → AllAreUp routes (adding face up).1 }
{}

/// Law: the removal of expired routes keeps the property that each face that has a next hop or a
/// route is up.
pub fn expiry_leaves_faces_up()
    ensures { (now : ℕ) (up : List ℕ) (routes : Routes)
        → AllAreUp routes up → AllAreUp (left_at now routes) up }
{}

/// Law: every status of a command has a text.
pub fn statuses_have_texts()
    ensures applied { (c : PlainCommand) (face : ℕ) (up : List ℕ) (routes : Routes)
        (choices : Choices) → IsSome (text_of (status_of c face up routes choices)) }
    ensures refused { (name : List Field)
        → IfErr (command_at name) (λ status. IsSome (text_of status)) }
{}

/// Law: the length of replies is bounded, so memory for a reply can be reserved before the status
/// of the reply is known.
pub fn replies_are_bounded()
    ensures body { (c : PlainCommand) (face status : ℕ)
        → length (body_after c face status) ≤ body_limit c }
    ensures whole { (c : PlainCommand) (face status : ℕ) (text : List ℕ)
        → text_of status ≡ Some text
        → length (response status text (body_after c face status)) ≤ reply_limit c }
    // This bound holds for every text and body, and not only for the texts that `text_of` gives.
    // For example, `text_of` does not give the text of the reply to a command that no access rule
    // allows.
    ensures any { (status : ℕ) (text body : List ℕ)
        → length (response status text body) ≤ length text + length body + 30 }
{}
