//! The windows of a session's questions, and those that open and end a connection.
ghost use Rattle.std.specs.Prelude.{◌≡◌, ◌∷◌, [], IfErr, IfOk, map};
ghost use Rattle.mvd_dots.specs.declared.refusals.Refusal.TheVariants.{Memory};
ghost use Rattle.mvd_wire.specs.declared.request.Request.TheVariants.{Bucket, Bye, Get, Hello, Node, Push};
ghost use Rattle.mvd_keys.specs.State.{IsValid};
ghost use Rattle.mvd_peer.specs.PushedStates.{Each};
ghost use Rattle.mvd_remote.specs.LinkWindows.{frames_of};
ghost use Rattle.mvd_remote.specs.Lines.{HaveFrames};
ghost use Rattle.mvd_remote.specs.Remotes.{PushesValid, requests_of};

use super::window::Frames;
use mvd_dots::Refusal;
use mvd_frames::{encode_bucket, encode_bye, encode_get, encode_hello, encode_node, encode_push};
use mvd_keys::{Key, KeyState, Path};
use mvd_peer::Window;
use mvd_wire::Token;
use std::alloc::Global;

impl Frames {
    /// The questions of a window of a session.
    pub fn of(alloc: Global, asked: &Window) -> Result<Self, Refusal>
        ensures frames { IfOk result (λ window. window ≡ frames_of (requests_of asked.now)) }
        ensures spelled { IfOk result (λ _. HaveFrames (requests_of asked.now)) }
        ensures valid { IfOk result (λ _. PushesValid asked.now) }
        ensures memory { IfErr result (λ refusal. refusal ≡ Memory) }
    {
        match asked {
            Window::Nodes(paths) => Frames::nodes(alloc, paths),
            Window::Pages(pages) => Frames::pages(alloc, pages),
            Window::Gets(keys) => Frames::gets(alloc, keys),
            Window::Pushes(pairs) => Frames::pushes(alloc, pairs),
        }
    }

    /// The questions for nodes.
    fn nodes(alloc: Global, paths: &[Path]) -> Result<Self, Refusal>
        ensures frames { IfOk result (λ window. window ≡ frames_of (map (λ path. Node path) paths.now)) }
        ensures spelled { IfOk result (λ _. HaveFrames (map (λ path. Node path) paths.now)) }
        ensures memory { IfErr result (λ refusal. refusal ≡ Memory) }
    {
        let mut window = Frames::new(alloc, paths.len())?;
        for path in paths {
            window.add(encode_node(alloc, path))?;
        }
        Ok(window)
    }

    /// The questions for pages of buckets, each after a key.
    fn pages(alloc: Global, asked: &[(Path, Option<Key>)]) -> Result<Self, Refusal>
        ensures frames { IfOk result (λ window. window ≡ frames_of (map (λ q. Bucket q.0 q.1) asked.now)) }
        ensures spelled { IfOk result (λ _. HaveFrames (map (λ q. Bucket q.0 q.1) asked.now)) }
        ensures memory { IfErr result (λ refusal. refusal ≡ Memory) }
    {
        let mut window = Frames::new(alloc, asked.len())?;
        for (path, after) in asked {
            window.add(encode_bucket(alloc, path, after))?;
        }
        Ok(window)
    }

    /// The questions for the states of keys.
    fn gets(alloc: Global, keys: &[Key]) -> Result<Self, Refusal>
        ensures frames { IfOk result (λ window. window ≡ frames_of (map (λ key. Get key) keys.now)) }
        ensures spelled { IfOk result (λ _. HaveFrames (map (λ key. Get key) keys.now)) }
        ensures memory { IfErr result (λ refusal. refusal ≡ Memory) }
    {
        let mut window = Frames::new(alloc, keys.len())?;
        for key in keys {
            window.add(encode_get(alloc, key))?;
        }
        Ok(window)
    }

    /// Pushes.
    fn pushes(alloc: Global, pairs: &[(Key, KeyState)]) -> Result<Self, Refusal>
        ensures frames { IfOk result (λ window. window ≡ frames_of (map (λ pair. Push pair.0 pair.1) pairs.now)) }
        ensures spelled { IfOk result (λ _. HaveFrames (map (λ pair. Push pair.0 pair.1) pairs.now)) }
        ensures valid { IfOk result (λ _. Each (λ pair. IsValid pair.1) pairs.now) }
        ensures memory { IfErr result (λ refusal. refusal ≡ Memory) }
    {
        let mut window = Frames::new(alloc, pairs.len())?;
        for (key, state) in pairs {
            // Here it is known that the pushed state's siblings have been seen.
            let _seen = state.context();
            window.add(encode_push(alloc, key, state))?;
        }
        Ok(window)
    }

    /// A Hello that shows a token.
    pub fn hello(alloc: Global, token: &Token) -> Result<Self, Refusal>
        ensures frames { IfOk result (λ window. window ≡ frames_of (Hello token.now ∷ [])) }
        ensures memory { IfErr result (λ refusal. refusal ≡ Memory) }
    {
        let mut window = Frames::new(alloc, 1)?;
        window.add(encode_hello(alloc, token))?;
        Ok(window)
    }

    /// A Bye.
    pub fn bye(alloc: Global) -> Result<Self, Refusal>
        ensures frames { IfOk result (λ window. window ≡ frames_of (Bye ∷ [])) }
        ensures memory { IfErr result (λ refusal. refusal ≡ Memory) }
    {
        let mut window = Frames::new(alloc, 1)?;
        window.add(encode_bye(alloc))?;
        Ok(window)
    }
}
