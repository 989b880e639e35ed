//! Laws: the node and repositories read what the client writes, and the client reads what the node
//! and repositories write. The laws do nothing at run time.

ghost use Rattle.std.specs.Prelude.{◌≡◌, ◌<◌, ◌^◌, ◌==◌, ◌&&◌, ◌||◌, ◌++◌, ℕ, List, Some, None, Ok, Err, length, not, true, false, if◌then◌else◌};
ghost use Rattle.ndn_tlv.specs.Element.{Field};
ghost use Rattle.mgmt_core.specs.declared.action.Action.{Action};
ghost use Rattle.mgmt_core.specs.declared.types.TheConstants as code;
ghost use Rattle.mgmt_core.specs.Reading.{PlainCommand, command_at};
ghost use Rattle.mgmt_core.specs.Writing.{body_after, response};
ghost use Rattle.repo_core.specs.declared.verb.Verb.{Verb};
ghost use Rattle.repo_core.specs.declared.types.TheConstants as repo_code;
ghost use Rattle.repo_core.specs.Reading.{repo_command_at};
ghost use Rattle.repo_core.specs.Writing.{repo_response};
ghost use Rattle.ndn_explain.specs.Meaning.{reply_lines};
ghost use Rattle.ndn_requests.specs.declared.parameters.Parameters.{Parameters};
ghost use Rattle.ndn_requests.specs.Parameters.{command_name, is_of_node};
ghost use Rattle.ndn_requests.specs.Commands.{AreValues, Fits64, IsWhole, asked_of, node_name, repository_name, signed_name, suits, wanted_of};
ghost use Rattle.ndn_requests.specs.Reply.{content_outcome, done_if, is_insert, is_of_repository};
ghost use Rattle.ndn_requests.specs.Shown.{node_shown, repository_shown};

/// Law: if the parameters suit the command, the node reads the name of the command's Interest as
/// exactly the requested command. Otherwise the node refuses this name with status 400. The digest
/// that follows the parameters makes no difference.
pub fn nodes_read_what_is_asked()
    ensures { (action : Action) (p : Parameters) (digest : List ℕ) → AreValues p
        → IsWhole (command_name (node_name action) p)
        → command_at (signed_name (node_name action) p digest)
        ≡ (if suits action p then Ok (asked_of action p) else Err code.BAD_PARAMETERS) }
{}

/// Law: if a command's name is not under `/localhost/nfd`, the repository reads the name of the
/// command's Interest as exactly the requested command, whatever digest follows the parameters.
pub fn repositories_read_what_is_asked()
    ensures { (prefix : List Field) (verb : Verb) (p : Parameters) (digest : List ℕ)
        → AreValues p → is_of_node (repository_name prefix verb) ≡ false
        → IsWhole (command_name (repository_name prefix verb) p)
        → repo_command_at prefix (signed_name (repository_name prefix verb) p digest)
        ≡ Some (wanted_of verb p) }
{}

/// Law: for the Content of a reply that the node or a repository writes, `reply_lines` is exactly
/// the lines of two things: the status with its text, and the fields of the reply.
pub fn replies_are_explained()
    ensures node { (c : PlainCommand) (face status : ℕ) (text : List ℕ) → IsWhole c.name
        → face < 2 ^ 64 → c.face < 2 ^ 64 → c.origin < 2 ^ 64 → c.cost < 2 ^ 64
        → c.flags < 2 ^ 64 → Fits64 c.expires → Fits64 c.count → status < 2 ^ 64
        → length (response status text (body_after c face status)) < 2 ^ 64
        → reply_lines (response status text (body_after c face status))
        ≡ node_shown c face status text }
    ensures repository { (status count : ℕ) (text : List ℕ) → status < 2 ^ 64 → count < 2 ^ 64
        → length (repo_response status text count) < 2 ^ 64
        → reply_lines (repo_response status text count) ≡ repository_shown status text count }
{}

/// Law: a command counts as done exactly if the status in the reply is 200, or if the status is 100
/// and the command is an insert to a repository.
pub fn statuses_decide()
    ensures node { (name : List Field) (status : ℕ) (text body : List ℕ) → status < 2 ^ 64
        → is_of_repository name ≡ false → length (response status text body) < 2 ^ 64
        → content_outcome name (response status text body) ≡ done_if (status == code.OK) }
    ensures repository { (name : List Field) (status count : ℕ) (text : List ℕ) → status < 2 ^ 64
        → is_of_repository name ≡ true → length (repo_response status text count) < 2 ^ 64
        → content_outcome name (repo_response status text count)
        ≡ done_if (status == repo_code.OK || (status == repo_code.PENDING && is_insert name)) }
{}

/// Law: a command that the client writes counts as a command to a repository exactly if its name is
/// not under `/localhost/nfd`.
pub fn commands_tell_whose_they_are()
    ensures { (name : List Field) (p : Parameters) (digest : List ℕ)
        → IsWhole (command_name name p)
        → is_of_repository (signed_name name p digest) ≡ not (is_of_node name) }
{}
