//! Laws of the spellings.
ghost use Rattle.std.specs.Prelude.{◌≡◌, ◌≤◌, ◌<◌, ◌+◌, ◌++◌, List, ℕ, [], length, true, Option, Ok, Some, None};
ghost use Rattle.std.specs.List.{All};
ghost use Rattle.mvd_dots.specs.Dot.{DotValue};
ghost use Rattle.mvd_dots.specs.Context.{DotSet};
ghost use Rattle.mvd_keys.specs.Key.{is_key};
ghost use Rattle.mvd_keys.specs.Path.{is_path};
ghost use Rattle.mvd_keys.specs.State.{State, Text};
ghost use Rattle.mvd_wire.specs.Frames.{FrameValue, frame_limit, frame_at, spell_frame};
ghost use Rattle.mvd_wire.specs.Codec.{Codec, IsPrefixFree, optional};
ghost use Rattle.mvd_wire.specs.Codecs.{layout1, layout2, dot, entry, context_codec, sibling, key, document, path, prefix};
ghost use Rattle.mvd_wire.specs.Codecs.{token, state_codec, spell_state, state_limit, IsInForm};
ghost use Rattle.mvd_wire.specs.Rows.{digests_codec, ends, field, key_count, key_entry, page, place, row_codec, spot_codec};
ghost use Rattle.mvd_wire.specs.Rows.{sum, term, view_name, view_row};
ghost use Rattle.mvd_wire.specs.Requests.{SpellsRequest, IsRequest, request_of, request_kind as request_kind};
ghost use Rattle.mvd_wire.specs.Requests.{request_payload as request_payload, request_bytes, request_frame};
ghost use Rattle.mvd_wire.specs.Replies.{CanBeSent, IsReply, reply_of, reply_kind as reply_kind};
ghost use Rattle.mvd_wire.specs.Replies.{reply_payload as reply_payload, is_short, reply_bytes};
ghost use Rattle.mvd_wire.specs.declared.request.Request.TheVariants as asked;
ghost use Rattle.mvd_wire.specs.declared.reply.Reply.TheVariants as answered;

use mvd_wire::{Reply, Request};

/// Each value has one spelling, and no spelling of a kind begins another of that kind.
pub fn one_spelling()
    ensures dots { IsPrefixFree (dot layout2) }
    ensures entries_of_contexts { (previous : ℕ) → IsPrefixFree (entry layout2 previous) }
    ensures contexts { IsPrefixFree (context_codec layout2) }
    ensures keys { IsPrefixFree key }
    ensures documents { IsPrefixFree document }
    ensures paths { IsPrefixFree path }
    ensures prefixes { IsPrefixFree prefix }
    ensures tokens { IsPrefixFree token }
    ensures fields { IsPrefixFree field }
    ensures view_names { IsPrefixFree view_name }
    ensures terms { IsPrefixFree term }
    ensures places { IsPrefixFree place }
    ensures optional_keys { IsPrefixFree (optional key) }
    ensures optional_terms { IsPrefixFree (optional term) }
    ensures optional_places { IsPrefixFree (optional place) }
    ensures optional_keys_with_dots { IsPrefixFree (optional spot_codec) }
    ensures sums { IsPrefixFree sum }
    ensures ends_of_rows { IsPrefixFree ends }
    ensures rows { IsPrefixFree row_codec }
    ensures view_rows { IsPrefixFree view_row }
    ensures key_entries { IsPrefixFree key_entry }
    ensures key_counts { IsPrefixFree key_count }
    ensures digests_of_nodes { IsPrefixFree digests_codec }
    ensures lists_of_places { IsPrefixFree (page place) }
    ensures lists_of_view_rows { IsPrefixFree (page view_row) }
    ensures lists_of_key_entries { IsPrefixFree (page key_entry) }
    ensures lists_of_key_counts { IsPrefixFree (page key_count) }
    ensures siblings { (dots : DotSet) (previous : Option DotValue) → IsPrefixFree (sibling layout2 dots previous) }
    ensures states { IsPrefixFree (state_codec layout2) }
    ensures old_states { IsPrefixFree (state_codec layout1) }
    // No frame begins another, nor does that of a request or a reply.
    ensures frames_apart { (f g : FrameValue) (a b : List ℕ) → length f.payload + 1 ≤ frame_limit →
        length g.payload + 1 ≤ frame_limit → spell_frame f ++ a ≡ spell_frame g ++ b → (f ≡ g) × (a ≡ b) }
    ensures requests { (r s : Request) (a b : List ℕ) → IsRequest r → IsRequest s →
        length (request_payload r) + 1 ≤ frame_limit → length (request_payload s) + 1 ≤ frame_limit →
        request_bytes r ++ a ≡ request_bytes s ++ b → (r ≡ s) × (a ≡ b) }
    ensures replies { (r s : Reply) (a b : List ℕ) → IsReply r → IsReply s →
        length (reply_payload r) + 1 ≤ frame_limit → length (reply_payload s) + 1 ≤ frame_limit →
        reply_bytes r ++ a ≡ reply_bytes s ++ b → (r ≡ s) × (a ≡ b) }
    // A frame is read again, and what follows it is left.
    ensures frames { (f : FrameValue) (rest : List ℕ) → length f.payload + 1 ≤ frame_limit →
        frame_at (spell_frame f ++ rest) ≡ Ok (Some f, rest) }
    // Where bytes are read as a frame, they begin with its spelling.
    ensures frames_read { (bytes : List ℕ) (f : FrameValue) (rest : List ℕ) → All (λ b. b < 256) bytes →
        frame_at bytes ≡ Ok (Some f, rest) → (bytes ≡ spell_frame f ++ rest) ×
        (length f.payload + 1 ≤ frame_limit) }
    // Where no frame is read, there is no byte.
    ensures no_frame { (bytes : List ℕ) (rest : List ℕ) → frame_at bytes ≡ Ok (None, rest) → (bytes ≡ []) ×
        (rest ≡ []) }
{}

/// A key and then a state, as both are hashed for the tree: equal texts are one key in one state.
pub fn one_text()
    ensures { (k l : Text) (s t : State) → is_key k ≡ true → is_key l ≡ true → (state_codec layout2).Fits s →
        (state_codec layout2).Fits t → key.spell k ++ spell_state s ≡ key.spell l ++ spell_state t → (k ≡ l) × (s ≡ t) }
{}

/// Which states have a spelling, so also what a decoded state is; and that the spelling is their codec's.
pub fn spelled_states()
    ensures in_form { (s : State) → (state_codec layout2).Fits s → IsInForm s }
    ensures spelled { (s : State) → IsInForm s → (state_codec layout2).Fits s }
    ensures as_codec { (s : State) → (state_codec layout2).spell s ≡ spell_state s }
{}

/// What the first version of the format spells in 1,000,000 bytes the second spells in 1,150,000.
pub fn old_states_are_short()
    ensures { (s : State) → (state_codec layout1).Fits s
        → (state_codec layout2).Fits s × (length (spell_state s) ≤ state_limit) }
{}

/// What has a spelling is decoded from it.
pub fn decoded_again()
    ensures requests { (r : Request) → IsRequest r → request_of (request_kind r) (request_payload r) ≡ Ok r }
    ensures replies { (r : Reply) → IsReply r → reply_of (reply_kind r) (reply_payload r) ≡ Ok r }
{}

/// What is never too long for a frame.
pub fn can_be_sent()
    ensures gets { (k : Text) → is_key k ≡ true → request_frame (asked.Get k) ≡ Ok (request_bytes (asked.Get k)) }
    ensures nodes { (p : List ℕ) → is_path p ≡ true → request_frame (asked.Node p) ≡ Ok (request_bytes (asked.Node p)) }
    ensures buckets { (p : List ℕ) (after : Option Text) → IsRequest (asked.Bucket p after) →
        request_frame (asked.Bucket p after) ≡ Ok (request_bytes (asked.Bucket p after)) }
    ensures keys { (p : Text) (after : Option Text) → IsRequest (asked.Keys p after) →
        request_frame (asked.Keys p after) ≡ Ok (request_bytes (asked.Keys p after)) }
    ensures conflicts { (after : Option Text) → IsRequest (asked.Conflicts after) →
        request_frame (asked.Conflicts after) ≡ Ok (request_bytes (asked.Conflicts after)) }
    ensures hellos { (t : List ℕ) → IsRequest (asked.Hello t) →
        request_frame (asked.Hello t) ≡ Ok (request_bytes (asked.Hello t)) }
    ensures pushes { (k : Text) (s : State) → is_key k ≡ true → length (spell_state s) ≤ state_limit →
        request_frame (asked.Push k s) ≡ Ok (request_bytes (asked.Push k s)) }
    ensures short { (r : Reply) → is_short r ≡ true → CanBeSent r }
    ensures states { (s : State) → length (spell_state s) ≤ state_limit → CanBeSent (answered.State s) }
{}
