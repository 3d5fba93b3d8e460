//! Vertices of trees.
ghost use Rattle.std.specs.Prelude.{◌≡◌, ◌<◌, ◌^◌, OnOk, OnErr};
ghost use Rattle.blind_tree.specs.Vertices.{NoVertices, beside, count};
ghost use Rattle.blind_tree.specs.VertexLists.{vertices_of, one_vertex};

use crate::leaf::Leaf;
use ledger_terms::{Hash, push_closely};
use std::alloc::{AllocError, Global};
use std::marker::Model;

/// A vertex stands for a view. It shows its hash alone, or the leaves with the view's informees and contents and the
/// vertices of the views below it.
#[cycle(tree)]
#[derive(Drop)]
pub enum Vertex {
    Blind(Hash),
    Inner {
        informees: Leaf,
        contents: Leaf,
        subviews: VertexList,
    },
}

/// Vertices side by side, which contracts see with all that stands below them.
#[cycle(tree)]
#[derive(Drop)]
pub struct VertexList {
    vertices: Vec<Vertex>,
}

impl Model for VertexList {
    ghost use Rattle.blind_tree.specs.Vertices.{Vertices, coded_vertices};

    ghost Value = { Vertices };

    ghost coded = { coded_vertices };

    ghost use Rattle.blind_tree.specs.VertexLists.{vertices_of, vertex_count};

    ghost view = { λ l. vertices_of l.vertices.items };

    ghost size = { vertex_count };

    ghost use Rattle.blind_tree.specs.VerticesFall.{falls};

    ghost size_decreases = { λ l h. falls l };
}

impl VertexList {
    /// The list without vertices.
    pub fn new(alloc: Global) -> VertexList
        ensures { result ≡ NoVertices }
    {
        VertexList {
            vertices: Vec::new(alloc),
        }
    }

    /// The list of a vector's vertices. It asks for no memory.
    pub fn of(vertices: Vec<Vertex>) -> VertexList
        ensures { result ≡ vertices_of vertices.items }
    {
        VertexList { vertices }
    }

    /// The vector of the vertices. It asks for no memory.
    pub fn into_vec(self) -> Vec<Vertex>
        ensures { vertices_of result.items ≡ self }
    {
        let VertexList { vertices } = self;
        vertices
    }

    /// How many vertices there are, those below them not counted.
    #[tactic(auto, using(crate::proofs::Grow::counts))]
    pub fn len(&self) -> usize
        ensures vertices { result ≡ count self.now }
        ensures bound { result < 2 ^ 63 }
    {
        self.vertices.len()
    }

    /// The vertices as a slice.
    pub fn as_slice(&self) -> &[Vertex]
        ensures { vertices_of result.now ≡ self.now }
    {
        self.vertices.as_slice()
    }

    /// Puts a vertex at the end. Err is want of memory, and leaves the list as it was.
    #[tactic(auto, using(crate::proofs::Grow::grown))]
    pub fn push(&mut self, vertex: Vertex) -> Result<(), AllocError>
        ensures ok { OnOk result (self.new ≡ beside self.old (one_vertex vertex)) }
        ensures err { OnErr result (self.new ≡ self.old) }
    {
        push_closely(&mut self.vertices, vertex)
    }
}
