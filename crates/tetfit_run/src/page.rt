//! The page and the version of `tetfit`.

/// The page: what the program does, its switches, and seven examples.
pub const PAGE: &[u8] = b"\
tetfit [switches] name\n\
\n\
Fills a model with tetrahedra: the points of a .node file, or the solid that\n\
the facets of a .poly, .smesh, .off or .stl file bound, also a binary .stl;\n\
the extensions .off and .stl may have capitals.\n\
Coordinates keep at most 35 decimals, and fewer where the grid, which has\n\
2^29 units to each side of the middle, is too small or too coarse for them; a\n\
refusal that this rounding may have made says so.\n\
The mesh is written beside the model, as name.1.node, name.1.ele and\n\
name.1.face.\n\
\n\
\x20 p     the name without its extension is that of a .poly or .smesh file\n\
\x20 M     do not merge the coplanar facets of a model\n\
\x20 c     keep the convex hull\n\
\x20 A     write the attribute of its region with each tetrahedron\n\
\x20 a<V>  add points to make tetrahedra over the volume V smaller, and count those\n\
\x20       that are left; a word of its own, as -a0.5\n\
\x20 a     add points by the volume limits in the region lines of the file, each in\n\
\x20       its region, and write attributes as with A; a word of its own\n\
\x20 q<R>  add points to make tetrahedra whose circumradius is over R times their\n\
\x20       shortest edge better, and count those that are left; R is from 1 to 100,\n\
\x20       or 2 where none is given; a word of its own, as -q1.4; and move points so\n\
\x20       that no dihedral angle is below 20 degrees, as far as it comes, or below\n\
\x20       the 0 to 30 degrees behind a slash, as -q1.4/25, and count those left\n\
\x20 Y     add no points on edges and facets for -a and -q; a word of its own\n\
\x20 S<n>  add at most n points to protect segments, and n for -a and -q\n\
\x20 n     write name.1.neigh, the neighbors of each tetrahedron\n\
\x20 f     write all faces, and not those of the surface alone\n\
\x20 e     write name.1.edge\n\
\x20 k     write name.1.vtk, the whole mesh for viewers; a word of its own\n\
\x20 o2    write tetrahedra and faces of second order, which have the midpoints of\n\
\x20       their edges as corners too; a word of its own, as -o2\n\
\x20 N     no .node file\n\
\x20 E     no .ele file\n\
\x20 F     no .face file and no .edge file\n\
\x20 z     number the output from 0\n\
\x20 Q     no summary\n\
\x20 V     say each stage on standard error; a word of its own\n\
\x20 rC    check the mesh in name.node, name.ele, name.face and name.neigh, and write\n\
\x20       no file; a word of its own, as -rC, beside which only -Q goes\n\
\x20 h     this page; a word of its own, as --help\n\
\x20 --decimals=<m>  round to m decimals, from 0 to 20, and try no others\n\
\x20 --unit=<U>      round to multiples of U, as 0.002, and try no other unit; in place\n\
\x20                 of --decimals\n\
\x20 --halvings=<n>  halve the grid at most n times, from 0 to 18\n\
\x20 --msh           write name.1.msh, the whole mesh for Gmsh and solvers\n\
\x20 --version       the version\n\
\n\
Examples:\n\
\x20 tetfit part.stl            a solid from its surface\n\
\x20 tetfit -V part.stl         the same, and say what is done\n\
\x20 tetfit -nfe bracket.off    with neighbors, all faces and edges\n\
\x20 tetfit -pcQ plates         plates.poly in its convex hull, with no summary\n\
\x20 tetfit -a0.5 part.stl      with points added for volumes up to 0.5\n\
\x20 tetfit -q -a0.5 part.stl   and for well-shaped tetrahedra too\n\
\x20 tetfit points.node         the Delaunay tetrahedra of points\n";

/// The version.
pub const VERSION: &[u8] = b"tetfit 1.0\n";
