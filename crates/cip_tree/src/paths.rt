// Paths: the vertices from a node's own back to the root.
ghost use Rattle.std.specs.Prelude.{◌≡◌, ◌<◌, ◌≤◌, ◌+◌, ◌-◌, ◌^◌, ◌∷◌, IfOk, drop, length};
ghost use Rattle.cip_digraph.specs.declared.nodes.NodeKind.TheVariants.{Closure};
ghost use Rattle.cip_digraph.specs.digraph.Digraph.{begins_with, duplicate};
ghost use Rattle.cip_digraph.specs.rings.Alternating.{is_in};
ghost use Rattle.cip_digraph.specs.rules.Keys.{path_from as part_from, counterpart as path_of_counterpart};

use std::alloc::{AllocError, Global};

/// The path of a child.
pub fn longer(alloc: Global, vertex: u32, path: &[u32]) -> Result<Vec<u32>, AllocError>
    ensures { IfOk result (λ longer. longer.items ≡ vertex ∷ path.now) }
{
    let mut longer = Vec::new(alloc);
    longer.push(vertex)?;
    longer.extend_from_slice(path)?;
    Ok(longer)
}

pub fn is_on(path: &[u32], vertex: u32) -> bool
    ensures { result ≡ is_in vertex path.now }
{
    path.contains(&vertex)
}

/// Whether a vertex is right above the end of a path.
pub fn is_above(path: &[u32], vertex: u32) -> bool
    ensures { result ≡ begins_with vertex (drop 1 path.now) }
{
    path.len() > 1 && path[1] == vertex
}

/// The part of a path from a vertex on.
fn path_from(path: &[u32], vertex: u32) -> &[u32]
    ensures { result.now ≡ part_from vertex path.now }
{
    let mut rest = path;
    while let [first, more @ ..] = rest {
        if *first == vertex {
            return rest;
        }
        rest = more;
    }
    rest
}

/// The path of the real node that stands for what a duplicate repeats.
pub fn counterpart(alloc: Global, path: &[u32], vertex: u32) -> Result<Vec<u32>, AllocError>
    ensures { IfOk result (λ other. other.items ≡ path_of_counterpart (duplicate Closure vertex path.now)) }
{
    if is_on(path, vertex) {
        path_from(path, vertex).to_vec(alloc)
    } else {
        longer(alloc, vertex, path)
    }
}

/// The sphere of that node.
#[tactic(auto, using(crate::proofs::lemmas::OnPath::met))]
pub fn sphere_of_counterpart(path: &[u32], vertex: u32) -> u32
    requires { length path.now < 2 ^ 32 }
    ensures { result ≡ length (path_of_counterpart (duplicate Closure vertex path.now)) - 1 }
{
    if is_on(path, vertex) {
        (path_from(path, vertex).len() - 1) as u32
    } else {
        path.len() as u32
    }
}
